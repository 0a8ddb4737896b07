ghost use Rattle.vms_calls.specs.TurnLaws.{AreasAscend, LeavesNormal, LeavesPressure, BalanceNamesZone};

use crate::ThresholdRules;

/// A test for an order looks for blocks of that order first and for larger ones after it, in whichever order the items
/// that count them are declared.
pub fn areas_ascend()
    ensures { AreasAscend }
{}

/// A balance test that answers yes names a zone that passed, and above order 0 a free block as large as was asked for.
pub fn balance_tests_name_what_passed()
    ensures { BalanceNamesZone }
{}

/// After yes a turn of kswapd leaves thresholds of the normal rule, after no those of the pressure rule. It leaves them
/// on the CPUs that it found online, in each zone of the node whose mark its last call on thresholds found not 0.
pub fn turns_leave_rules<R: ThresholdRules>()
    ensures after_yes { LeavesNormal R.pressure R.normal }
    ensures after_no { LeavesPressure R.pressure R.normal }
{}
