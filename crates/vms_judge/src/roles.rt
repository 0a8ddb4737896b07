use vms_base::CpuId;

/// What a step does to the passes.
#[derive(Clone, Copy, Debug, PartialEq, Eq)]
pub enum Role {
    /// It begins and ends no pass.
    Works,
    /// It begins the pass of this number, which owns a CPU or is the control pass.
    Begins(u32, Option<CpuId>),
    /// It ends the pass of this number.
    Ends(u32),
}
