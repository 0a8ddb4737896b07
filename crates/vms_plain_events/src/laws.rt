ghost use Rattle.std.specs.Prelude.{ℕ, ◌<◌, ◌≤◌, ◌^◌};
ghost use Rattle.vms_history.specs.Common.{IsCpu};
ghost use Rattle.vms_event_core.specs.declared.steps.EventFacts.{EventFacts};
ghost use Rattle.vms_event_core.specs.Common.{online_cpus, sum_over, History, IsLegal, state_after, IsEvent, word_at};
ghost use Rattle.vms_plain_events.specs.PlainWords.{HasWords};

use vms_event_core::laws_are_kept;

/// At every moment of a legal history the words leave room for each call: there is one for each CPU of the layout, and
/// neither one of them nor the sum of an event is too large.
pub fn histories_leave_room()
    ensures cpus { (facts : EventFacts) (h : History) (n : ℕ) → IsLegal facts h → n ≤ facts.layout.cpus →
        HasWords (state_after facts h) n }
    ensures words { (facts : EventFacts) (h : History) (c k : ℕ) → IsLegal facts h → IsCpu facts.layout c →
        IsEvent k → word_at (state_after facts h) c k < 2 ^ 62 }
    ensures sums { (facts : EventFacts) (h : History) (k : ℕ) → IsLegal facts h → IsEvent k →
        sum_over (state_after facts h) k (online_cpus facts) < 2 ^ 62 }
{
    laws_are_kept();
}
