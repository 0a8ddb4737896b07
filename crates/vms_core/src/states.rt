use vms_base::{CpuState, Row};

pub type Longs = Row<i64>;

pub type Smalls = Row<u32>;

pub type Marks = Row<u64>;

pub type States = Row<CpuState>;

pub type Acks = Row<Option<u32>>;

/// The page counters of a machine, in pages of 4096 bytes (`struct zone`, `pglist_data`, `vm_zone_stat` and
/// `vm_node_stat` of the kernel).
#[derive(Debug, Drop)]
pub struct State {
    /// The global values by counter.
    pub place: Longs,
    /// The system-wide values by item.
    pub system: Longs,
    /// The differentials by CPU and then counter.
    pub diff: Longs,
    /// The thresholds by CPU and then place.
    pub threshold: Smalls,
    /// The drift marks in force, by zone.
    pub mark: Marks,
    /// Whether each CPU is online, dead or absent.
    pub cpu: States,
    /// The number of the threshold that a CPU acknowledged last in this phase, by CPU and then zone.
    pub acknowledged: Acks,
    /// How often each threshold was set in this phase, by CPU and then place.
    pub threshold_sets: Smalls,
    /// How often each mark was set in this phase, by zone.
    pub mark_sets: Smalls,
}

/// A threshold as a load tells it.
#[derive(Clone, Copy, Debug, PartialEq, Eq)]
pub struct Threshold {
    pub t: u32,
    /// How often the threshold was set in this phase.
    pub number: u32,
}

/// A drift mark as a load tells it.
#[derive(Clone, Copy, Debug, PartialEq, Eq)]
pub struct MarkRead {
    /// The mark, in pages.
    pub mark: u64,
    /// How often the mark was set in this phase.
    pub number: u32,
}
