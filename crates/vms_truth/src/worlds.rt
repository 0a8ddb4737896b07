ghost use Rattle.vms_truth.specs.WorldTruth.{WaysKeepWorlds, WaysStayNear};

use vms_calls::ThresholdRules;
use vms_drift::numbers_stay_near_totals;

/// What the numbers mean that a report prints: in every world between phases no caller carries anything, and each
/// value of page and percpu counters is near what its counters add up to. The number of an event is what its words add
/// up to, but for those of dead CPUs.
pub fn reports_are_near<R: ThresholdRules>()
    ensures near { WaysStayNear R.pressure R.normal }
    ensures worlds { WaysKeepWorlds R.pressure R.normal }
{
    numbers_stay_near_totals();
    vms_pcpu_core::laws_are_kept();
    vms_world::boundaries_keep_worlds::<R>();
    vms_world::phases_keep_worlds();
}
