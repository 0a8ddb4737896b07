use vms_base::CpuId;
use vms_group_core::GroupCall;

/// What a line after `go` says.
#[derive(Clone, Copy, Debug, PartialEq, Eq)]
pub enum GroupLine {
    /// Nothing: the line is blank, or a remark.
    Blank,
    /// That a CPU's lane makes a call.
    Lane(CpuId, GroupCall),
    /// That the phase so far ends.
    Sync,
    /// The same, and that the groups' values and totals are printed.
    Report,
}
