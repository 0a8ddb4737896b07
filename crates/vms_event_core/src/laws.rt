ghost use Rattle.std.specs.Prelude.{◌≡◌, ◌≤◌, ℕ, pos, ◌+ℤ◌, true, Some, List, [], ◌++◌};
ghost use Rattle.vms_history.specs.Common.{CpuId, own, after, total, begun_in, lives_in, owner_in};
ghost use Rattle.vms_event_core.specs.declared.steps.EventFacts.{EventFacts};
ghost use Rattle.vms_event_core.specs.declared.steps.EventStep.{EventStep};
ghost use Rattle.vms_event_core.specs.Endings.{HoldsTotals, ending, LeavesRoom, BeginsAgain, IsPaid, spent_by_now};
ghost use Rattle.vms_event_core.specs.Endings.{StaysWithinVolumes};
ghost use Rattle.vms_event_core.specs.Events.{History, IsLegal, IsComplete};
ghost use Rattle.vms_event_core.specs.Laws.{KeepsLaws};
ghost use Rattle.vms_event_core.specs.CallLaws.{HasMade, KeepsSpending};
ghost use Rattle.vms_event_core.specs.Steps.{role};
ghost use Rattle.vms_event_core.specs.Totals.{counted, spent};
ghost use Rattle.vms_event_core.specs.Words.{IsEvent};

/// All laws of the event counters hold at every moment of a legal history, after each of its steps.
pub fn laws_are_kept()
    ensures { (facts : EventFacts) (more h : History) → IsLegal facts (more ++ h) → KeepsLaws facts h }
{}

/// Once every pass has ended, nobody carries anything, and the words of an event alone are its true total.
pub fn complete_histories_hold_totals()
    ensures { (facts : EventFacts) (h : History) (k : ℕ) → IsComplete facts h → IsEvent k → HoldsTotals facts h k }
{}

/// A complete history leaves a base, with which the next history may begin, as long as the true totals are small. They
/// are where all histories together keep to the CPUs' volumes.
pub fn complete_histories_leave_bases()
    ensures small { (facts : EventFacts) (h : History) → IsComplete facts h → LeavesRoom facts h →
        BeginsAgain facts h }
    ensures within_volumes { (facts : EventFacts) (h : History) (start : ℕ) (earlier : ℕ → ℕ → ℕ) →
        IsComplete facts h → IsPaid facts start earlier → StaysWithinVolumes facts earlier h →
        BeginsAgain facts h × IsPaid (ending facts h) start (spent_by_now earlier h) }
{}

/// While a pass owns a CPU, the CPU spends what the pass's own steps count, and no more.
pub fn owners_spend_by_own_steps()
    ensures { (facts : EventFacts) (later earlier : History) (p : ℕ) (steps : List EventStep) (c : CpuId) →
        HasMade facts later earlier p steps → owner_in role earlier p ≡ Some c →
        (k : ℕ) → pos (spent later c.number k)
        ≡ pos (spent earlier c.number k) +ℤ total (counted k) (after p steps []) }
{}

/// While a pass that owns a CPU lives, what the CPU has counted is known to the pass: no step of others changes it.
pub fn spending_is_known()
    ensures { (facts : EventFacts) (m h : History) (p : ℕ) → IsLegal facts (m ++ h) →
        lives_in role (m ++ h) p ≡ true → p ≤ begun_in role h → own m p ≡ [] → KeepsSpending (m ++ h) h p }
{}
