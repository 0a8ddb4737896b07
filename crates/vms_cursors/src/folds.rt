use vms_base::CpuId;

/// A fold of a CPU, by the pass that owns it or by another.
#[derive(Clone, Copy, Debug, PartialEq, Eq)]
pub struct Fold {
    pub cpu: CpuId,
    pub is_own: bool,
}
