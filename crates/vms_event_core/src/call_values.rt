use vms_base::{CpuId, EventId};

/// A call on the event counters.
#[derive(Clone, Copy, Debug, PartialEq, Eq)]
pub enum EventCall {
    /// Counts an event so many times on the caller's CPU (`count_vm_events` of include/linux/vmstat.h).
    Count(EventId, u64),
    /// Sums an event over the CPUs that are online (`all_vm_events` of mm/vmstat.c).
    Sum(EventId),
    /// Moves what a dead CPU has counted to the lowest-numbered CPU that is online (`vm_events_fold_cpu` of
    /// mm/vmstat.c).
    FoldDead(CpuId),
}

/// What a call on the event counters answers.
#[derive(Clone, Copy, Debug, PartialEq, Eq)]
pub enum EventAnswer {
    /// That it is made.
    Done,
    /// The sum of an event.
    Total(u64),
}
