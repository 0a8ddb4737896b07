use crate::kept_lanes::KeptLane;
use vms_base::{CounterId, CpuId, EventId, ItemId, PcpuId, PlaceId, WaterMark};

/// Whose line it is: a CPU's, or the control's, which belongs to no CPU.
#[derive(Clone, Copy, Debug, PartialEq, Eq)]
pub enum Lane {
    Cpu(CpuId),
    Control,
}

/// What a lane does. Amounts on counters are in pages.
#[derive(Clone, Copy, Debug, PartialEq, Eq)]
pub enum Act {
    /// Changes a counter by so many pages (`mod_zone_page_state`, `mod_node_page_state` of mm/vmstat.c).
    Mod(CounterId, i64),
    /// Raises a counter by one page (`inc_zone_page_state`, `inc_node_page_state` of mm/vmstat.c).
    Inc(CounterId),
    /// Lowers a counter by one page (`dec_zone_page_state`, `dec_node_page_state` of mm/vmstat.c).
    Dec(CounterId),
    /// Counts an event so many times (`count_vm_events` of include/linux/vmstat.h).
    Ev(EventId, u64),
    /// Adds an amount to a percpu counter (`percpu_counter_add` of lib/percpu_counter.c).
    Cnt(PcpuId, i64),
    /// Adds an amount, the last number, to a percpu counter where the sum stays within a limit, the first. This
    /// project's own.
    Lim(PcpuId, i64, i64),
    /// Compares a percpu counter with a number (`percpu_counter_compare` of lib/percpu_counter.c).
    Cmp(PcpuId, i64),
    /// Sums a percpu counter over all CPUs (`percpu_counter_sum` of lib/percpu_counter.c).
    Sum(PcpuId),
    /// Reads a percpu counter without what the CPUs hold (`percpu_counter_read` of include/linux/percpu_counter.h).
    Rough(PcpuId),
    /// Moves what the lane's CPU holds into a percpu counter (`percpu_counter_sync` of lib/percpu_counter.c).
    Csync(PcpuId),
    /// Sums an event over the online CPUs (`all_vm_events` of mm/vmstat.c).
    EvSum(EventId),
    /// Folds a CPU's differentials into the counters (`refresh_cpu_vm_stats` of mm/vmstat.c).
    Fold(CpuId),
    /// Tests a zone's free pages against a watermark, for a highest zone index (`zone_watermark_ok_safe` of
    /// mm/page_alloc.c).
    Water(PlaceId, WaterMark, u32),
    /// Reads a counter in pages, as a reader sees it (`zone_page_state` of include/linux/vmstat.h).
    Val(CounterId),
    /// Reads a counter in pages with all differentials (`zone_page_state_snapshot` of include/linux/vmstat.h).
    Snap(CounterId),
    /// Reads a system-wide value in pages (`global_zone_page_state` of include/linux/vmstat.h).
    Sys(ItemId),
    /// Gives a node's zones the thresholds of the pressure rule, which may also be larger than those that stand
    /// (`set_pgdat_percpu_threshold` of mm/vmstat.c).
    Pressure(PlaceId),
    /// Gives a node's zones the thresholds of the normal rule (`set_pgdat_percpu_threshold` of mm/vmstat.c).
    Normal(PlaceId),
    /// Buries a dead CPU: folds what it left (`page_alloc_cpu_dead` of mm/page_alloc.c).
    Dead(CpuId),
    /// Takes a balance turn of a node, for an order and a highest zone index (`balance_pgdat` of mm/vmscan.c).
    Kswapd(PlaceId, u32, u32),
}

/// What a report tells.
#[derive(Clone, Copy, Debug, PartialEq, Eq)]
pub enum ReportKind {
    /// The system-wide values and the events (`/proc/vmstat`).
    Vmstat,
    /// Each zone's free pages, watermarks and counters (`/proc/zoneinfo`).
    Zoneinfo,
    /// Each counter's sum with all differentials.
    Totals,
    /// The percpu counters.
    Counters,
}

/// What stands between two phases.
#[derive(Clone, Copy, Debug, PartialEq, Eq)]
pub enum Boundary {
    /// The phase ends, and nothing more.
    Sync,
    /// Takes an online CPU down.
    Offline(CpuId),
    /// Brings a CPU up again.
    Online(CpuId),
    /// Folds the differentials of every online CPU.
    Flush,
    Report(ReportKind),
}

/// A line of the body.
#[derive(Clone, Copy, Debug, PartialEq, Eq)]
pub enum Line {
    /// Nothing but blanks, or a remark after `#`.
    Blank,
    Lane(Lane, Act),
    Boundary(Boundary),
}

/// A kept line of a phase.
#[derive(Clone, Copy, Debug, PartialEq, Eq)]
pub struct Item {
    /// The number of the line in the text, counted from 1.
    pub number: u32,
    pub lane: KeptLane,
    pub act: Act,
}
