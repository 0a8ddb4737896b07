ghost use Rattle.vms_truth.specs.PhaseFlight.{PhasesFlyLittle};
ghost use Rattle.vms_truth.specs.PhaseTransit.{PhasesCarryLittle};
ghost use Rattle.vms_truth.specs.PhaseTruth.{PhasesAnswerTruly};

use crate::calls_answer_truly;
use vms_calls::ThresholdRules;
use vms_drift::calls_carry_little;
use vms_near::calls_fly_little;

/// What a phase prints of page, event and percpu counters is true: each line that makes a call on them made its steps between
/// two histories of the phase, and what it answers tells of moments between these. Those of a lane's lines follow one
/// another. Callers carry little meanwhile, and have little in flight.
pub fn phases_answer_truly<R: ThresholdRules>()
    ensures { PhasesAnswerTruly R.pressure R.normal }
{
    calls_answer_truly::<R>();
    phases_carry_little::<R>();
    vms_event_core::answers_are_read();
    phases_fly_little::<R>();
}

/// How much is in transit in a phase: at each moment all callers together carry of a counter at most what one call of
/// each lane carries. That is 125 pages for a lane that folds or buries a CPU, and the size and 187 pages for one that
/// changes the counter. Of a system-wide value a fold or a burial carries 125 pages for each zone, or for each node.
pub fn phases_carry_little<R: ThresholdRules>()
    ensures { PhasesCarryLittle R.pressure R.normal }
{
    calls_carry_little::<R>();
}

/// How much is in flight in a phase: at each moment all callers together have at most so much of a counter in flight as
/// one call of each lane has. That is the size of a change of the counter, and 62 pages more only where a line of
/// another lane folds the lane's CPU; 125 pages for a line that folds another lane's CPU, or one that is buried in the
/// phase; and nothing for any other line.
pub fn phases_fly_little<R: ThresholdRules>()
    ensures { PhasesFlyLittle R.pressure R.normal }
{
    calls_fly_little::<R>();
    calls_carry_little::<R>();
}
