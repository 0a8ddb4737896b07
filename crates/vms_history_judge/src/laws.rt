ghost use Rattle.vms_certifying.specs.Laws.{FaultsAreFinal, FaultsStay};
ghost use Rattle.vms_history_judge.specs.WrittenRules.{written_rules};

use crate::Judge;
use vms_phase_checks::LaneWalk;

/// A line at fault stays so whatever lines follow. So no text is certified whose first lines have a line at fault.
pub fn judged_faults_are_final<W: LaneWalk>()
    ensures stay { FaultsStay (written_rules W.pressure W.normal) }
    ensures certified { FaultsAreFinal (written_rules W.pressure W.normal) }
{
    vms_history_checks::faults_are_final::<W>();
    vms_certifying::faults_are_final::<Judge<W>>();
}
