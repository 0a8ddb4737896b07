use vms_base::{CpuState, Row};
use vms_cells::Grid;

/// What each CPU has spent, and what the CPUs may hide of each zone, in pages.
#[derive(Debug, Drop)]
pub struct PagePeaks {
    /// The sizes of the changes that a CPU made, by CPU and counter.
    pub(crate) spent: Grid<u64>,
    /// The largest threshold that a CPU may still be using, by CPU and zone.
    pub(crate) peaks: Grid<u64>,
    /// The sum of the peaks of the CPUs that are online or dead, by zone.
    pub(crate) sums: Row<u64>,
}

/// What stands of a CPU and a zone.
#[derive(Clone, Copy, Debug)]
pub struct Newest {
    /// Whether the CPU is online, dead or absent.
    pub cpu: CpuState,
    /// The threshold that was set last.
    pub t: u32,
    /// How often the threshold was set.
    pub number: u64,
}
