ghost use Rattle.vms_recorded_texts.specs.RecordedTexts.{RecordedTextsAreCertified, RecordedTextsHaveNoFault};
ghost use Rattle.vms_recorded_texts.specs.RecordedTexts.{TextsWithinLimitsAreShort};

use vms_history_judge::{Judge, judged_faults_are_final};
use vms_line::lines_have_one_spelling;
use vms_line_walks::LineWalk;
use vms_recorded::recorded_histories_are_written;

/// What a recording writes of a trace is certified: its history is a whole one of the trace that stands before it, with
/// all phases and events, and no line of that trace is refused. So it is where no phase has 2^32 events; a text within
/// the limit on lines or the one on bytes has none of so many.
pub fn recorded_texts_are_certified()
    ensures certified { RecordedTextsAreCertified }
    ensures short { TextsWithinLimitsAreShort }
{
    lines_have_one_spelling();
    recorded_histories_are_written();
}

/// The command `certify` finds no fault in what a recording wrote: where it judges the text to its end its status is 0,
/// and its line gives the numbers of the phases and events.
pub fn recorded_texts_have_no_fault()
    ensures { RecordedTextsHaveNoFault }
{
    recorded_texts_are_certified();
    vms_certifying::faults_are_final::<Judge<LineWalk>>();
    judged_faults_are_final::<LineWalk>();
}
