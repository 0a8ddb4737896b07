ghost use Rattle.vms_calls.specs.Common.{Facts, History};
ghost use Rattle.vms_core.specs.Pages.{IsLegal};
ghost use Rattle.vms_drift.specs.PresentCpus.{CountersAreNear, ItemsAreNear};

/// How far the numbers of `/proc/vmstat` and `/proc/zoneinfo` may be from the truth, for a monitor that knows neither
/// thresholds nor marks: at every moment each counter of a zone or a node is off by at most 125 pages for each CPU that
/// is present, and what callers carry for it. Each system-wide value is off by at most so much for each zone of the
/// machine, or for each node if its item is one of nodes, and what callers carry for it. Linux 6.1 limits thresholds to
/// 125 in `calculate_normal_threshold` and `calculate_pressure_threshold` of mm/vmstat.c.
pub fn numbers_stay_near_totals()
    ensures counters { (facts : Facts) (h : History) → IsLegal facts h → CountersAreNear facts h }
    ensures items { (facts : Facts) (h : History) → IsLegal facts h → ItemsAreNear facts h }
{}
