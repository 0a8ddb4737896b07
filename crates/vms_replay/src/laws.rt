ghost use Rattle.vms_command.specs.Common.{following};
ghost use Rattle.vms_stream.specs.Common.{WritesInOrder};
ghost use Rattle.vms_replay.specs.ReplayedTexts.{TextsLeadOn};
ghost use Rattle.vms_replay.specs.Replaying.{replaying};

use crate::{Engine, KernelRules, Replay};
use vms_command::writes_texts;
use vms_file_order::{fitting_phases_are_phases, phases_keep_all_laws};
use vms_total_laws::{phases_add_their_lines, reported_sums_are_totals};
use vms_truth::{phases_answer_truly, reports_are_near};

/// The law that what a replay writes is the texts of the lines in their order, each answer by the phase of its line.
pub fn lines_print_in_order<E: Engine>()
    ensures { WritesInOrder (following (replaying E.Makes)) }
{
    writes_texts::<Replay<E>>();
}

/// The law that phases which lead through the lines of a text lead through the segments of its body, from the world
/// that a run begins with. Each is a phase of its lines by the kernel's rules of thresholds, and at each of its moments
/// all laws of the three tables hold. What its lines print of page, event and percpu counters tells how much there
/// truly was, at moments of the phase. Each boundary line does what is defined of it, and in each world that a report
/// tells the numbers are near what they add up to, and that are the plain sums of the lines before it.
pub fn phases_lead_through_texts<E: Engine>()
    ensures { TextsLeadOn E.Makes }
{
    E::makes_lines();
    fitting_phases_are_phases::<KernelRules>();
    phases_keep_all_laws();
    phases_answer_truly::<KernelRules>();
    reports_are_near::<KernelRules>();
    phases_add_their_lines::<KernelRules>();
    reported_sums_are_totals();
}
