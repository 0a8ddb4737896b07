ghost use Rattle.vms_truth.specs.AnswerTruth.{CallsAnswerTruly};
ghost use Rattle.vms_truth.specs.EventTruth.{EventCallsAnswerTruly};
ghost use Rattle.vms_truth.specs.PcpuTruth.{PcpuCallsAnswerTruly};

use vms_calls::ThresholdRules;
use vms_drift::numbers_stay_near_totals;

/// What the answer of a call tells of the true totals of the counters, whatever others did while it was made. It tells
/// of a moment that lies between the history in which the call began and the one in which it was made: so much at least
/// and so much at most, but for what callers carried then.
pub fn calls_answer_truly<R: ThresholdRules>()
    ensures pages { CallsAnswerTruly R.pressure R.normal }
    ensures events { EventCallsAnswerTruly }
    ensures counters { PcpuCallsAnswerTruly }
{
    numbers_stay_near_totals();
    vms_event_core::laws_are_kept();
    vms_event_core::online_words_grow();
}
