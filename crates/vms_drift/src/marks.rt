ghost use Rattle.vms_calls.specs.Common.{ByNormal, ByPressure};
ghost use Rattle.vms_drift.specs.LeftMarks.{NodeSettlesMarks, RefreshSettlesMarks};
ghost use Rattle.vms_drift.specs.RatedMarks.{MarkedVisitLeavesMark, VisitLeavesMark};

use vms_calls::{ThresholdRules, control_passes_know_by_own_steps};

/// Where a zone's drift mark comes to stand when the control pass visits the zone. Where it found, of every CPU that is
/// online, the number of the threshold that was set last, and no CPU is dead, the visit leaves `cover_mark` of Linux's
/// mark and of the larger of the old and the new threshold of each of these CPUs, in sum. Linux's mark is that of
/// `refresh_zone_stat_thresholds` of mm/vmstat.c. A visit by `set_pressure` or `set_normal` spares a zone whose mark is
/// 0; one by a refresh rates every zone.
pub fn visits_leave_marks<R: ThresholdRules>()
    ensures refresh { VisitLeavesMark (ByNormal R.normal) }
    ensures normal { MarkedVisitLeavesMark (ByNormal R.normal) }
    ensures pressure { MarkedVisitLeavesMark (ByPressure R.pressure R.normal) }
{}

/// The same of a whole call that the control pass made while others acted: once it is made, that mark stands. What
/// `visits_leave_marks` says of thresholds and of CPUs holds as they were when the call began.
pub fn calls_settle_marks<R: ThresholdRules>()
    ensures refresh { RefreshSettlesMarks R.normal }
    ensures normal { NodeSettlesMarks (ByNormal R.normal) }
    ensures pressure { NodeSettlesMarks (ByPressure R.pressure R.normal) }
{
    // What a pass computed from peaks stands, whatever others did meanwhile.
    control_passes_know_by_own_steps();
}
