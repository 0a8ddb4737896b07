ghost use Rattle.vms_calls.specs.Common.{Facts, History};
ghost use Rattle.vms_core.specs.Pages.{IsLegal};
ghost use Rattle.vms_drift.specs.NewestThresholds.{NewestBoundDrift, PressureBoundsDrift};

/// When the thresholds that stand tell how far a zone's counters may be from the truth. After a threshold is lowered, a
/// CPU may still hide as much as the old one allowed, so the thresholds that stand are no bound in general.
///
/// Where no CPU is dead and each CPU that is online acknowledged the threshold of the zone that was set last, each
/// counter of the zone is off by at most the thresholds of these CPUs together, and what callers carry for it. If none
/// of these thresholds is larger than the one for pressure (`calculate_pressure_threshold` of mm/vmstat.c), that is at
/// most the pages between `min` and `low`, or a page for each CPU that is online where these are more.
pub fn newest_thresholds_bound_drift()
    ensures newest { (facts : Facts) (h : History) → IsLegal facts h → NewestBoundDrift facts h }
    ensures pressure { (facts : Facts) (h : History) → IsLegal facts h → PressureBoundsDrift facts h }
{}
