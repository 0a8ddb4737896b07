use crate::Row;

/// What one CPU has changed in one table, in absolute sum, by counter, event or percpu counter.
pub type Volume = Row<u64>;

/// One CPU's volumes in the three tables.
#[derive(Debug, Drop)]
pub struct CpuVolumes {
    pub page: Volume,
    pub event: Volume,
    pub pcpu: Volume,
}

/// The volumes by CPU.
pub type Volumes = Row<CpuVolumes>;

/// A change that is refused, since one CPU may change one counter by at most 2^48 in absolute sum over a run.
#[derive(Clone, Copy, Debug, PartialEq, Eq, thiserror::Error)]
#[error("a change by {size} after {volume} is more than one run may make")]
pub struct Overflow {
    /// What the CPU has changed the counter by so far, in absolute sum.
    pub volume: u64,
    /// The absolute size of the refused amount.
    pub size: u64,
}
