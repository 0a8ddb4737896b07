ghost use Rattle.vms_stream.specs.Laws.{LongerOutcomes, OutcomesStandInWay};
ghost use Rattle.vms_stream.specs.Plain.{SaysPlainly};

use crate::Job;
use vms_io::Source;

/// With more outcomes a command goes the same way, as long as no phase lacks its outcome, and what it prints with fewer
/// begins what it prints with more.
pub fn longer_outcomes<J: Job>()
    ensures { LongerOutcomes J.behavior }
{}

/// From a state on, with what is left of the outcomes, it makes no difference with which a command started.
pub fn outcomes_stand_in_way<J: Job>()
    ensures { OutcomesStandInWay J.behavior }
{}

/// A command that makes no phase says what its plain behavior says, whatever its source is.
pub fn plain_commands_say_plainly<J: Job, S: Source>()
    ensures { SaysPlainly J.behavior J.Shows S.remaining S.calls }
{}
