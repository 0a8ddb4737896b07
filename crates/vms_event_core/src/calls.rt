ghost use Rattle.std.specs.Prelude.{◌≡◌, ◌≢◌, ◌≤◌, ℕ, List, length, ◌++◌};
ghost use Rattle.vms_history.specs.Common.{CpuId, EventId, Online};
ghost use Rattle.vms_event_core.specs.declared.call_values.EventAnswer.{EventAnswer};
ghost use Rattle.vms_event_core.specs.declared.call_values.EventCall.{EventCall};
ghost use Rattle.vms_event_core.specs.declared.steps.EventFacts.{EventFacts};
ghost use Rattle.vms_event_core.specs.declared.steps.EventStep.{EventStep};
ghost use Rattle.vms_event_core.specs.Bases.{cpu_at};
ghost use Rattle.vms_event_core.specs.Calls.{AtMostStands, IsAllEvents, IsEventCall, IsFoldEvents, event_spent};
ghost use Rattle.vms_event_core.specs.Calls.{read_all_events, read_event_call, read_fold_events, online_cpus};
ghost use Rattle.vms_event_core.specs.Events.{History, IsLegal, state_after};
ghost use Rattle.vms_event_core.specs.Laws.{most_in_sum};
ghost use Rattle.vms_event_core.specs.CallLaws.{CarryAsBefore, HasMade, KeepsSpending, LeavesZeros, MayCall, MayMake};
ghost use Rattle.vms_event_core.specs.CallLaws.{SpendNothing, SpendsSince, SumsBetween};
ghost use Rattle.vms_event_core.specs.Words.{IsEvent, event_count, word_at};

/// What a call answered can be read off its steps, whatever steps follow, and so can the sum over any CPUs, and what a
/// fold found.
pub fn answers_are_read()
    ensures call { (facts : EventFacts) (call : EventCall) (steps rest : List EventStep) (answer : EventAnswer) →
        IsEventCall facts call steps answer → read_event_call facts call (steps ++ rest) ≡ (answer, rest) }
    ensures sum { (cpus : List CpuId) (k : EventId) (found : List ℕ) (steps rest : List EventStep) (answer : ℕ) →
        IsAllEvents cpus k found steps answer → read_all_events (length cpus) (steps ++ rest) ≡ (answer, rest) }
    ensures found { (from into : CpuId) (found : List ℕ) (steps rest : List EventStep) →
        IsFoldEvents from into found steps → read_fold_events event_count (steps ++ rest) ≡ (found, rest) }
{}

/// A pass may make the steps of each call, whatever others do between them.
pub fn calls_may_be_made()
    ensures { (facts : EventFacts) (h : History) (p : ℕ) (call : EventCall) (steps : List EventStep)
        (answer : EventAnswer) → MayCall facts h p call → IsEventCall facts call steps answer →
        MayMake facts p h steps }
{}

/// A call leaves its caller carrying what it carried before, whichever CPUs a sum is over, and wherever a fold moves
/// what it finds.
pub fn calls_carry_nothing()
    ensures call { (facts : EventFacts) (call : EventCall) (steps : List EventStep) (answer : EventAnswer) →
        IsEventCall facts call steps answer → CarryAsBefore steps }
    ensures sum { (cpus : List CpuId) (k : EventId) (found : List ℕ) (steps : List EventStep) (answer : ℕ) →
        IsAllEvents cpus k found steps answer → CarryAsBefore steps }
    ensures fold { (from into : CpuId) (found : List ℕ) (steps : List EventStep) →
        IsFoldEvents from into found steps → CarryAsBefore steps }
{}

/// A count spends exactly its number of its event, of the CPU that its caller owns. The other calls spend nothing,
/// whichever CPUs a sum is over, and wherever a fold moves what it finds.
pub fn counts_alone_spend()
    ensures call { (facts : EventFacts) (later earlier : History) (p : ℕ) (call : EventCall)
        (steps : List EventStep) (answer : EventAnswer) → HasMade facts later earlier p steps →
        IsEventCall facts call steps answer → SpendsSince later earlier p (event_spent call) }
    ensures nothing { (facts : EventFacts) (call : EventCall) (steps : List EventStep) (answer : EventAnswer) →
        IsEventCall facts call steps answer → ((k : ℕ) → event_spent call k ≡ 0) → SpendNothing steps }
    ensures sum { (cpus : List CpuId) (k : EventId) (found : List ℕ) (steps : List EventStep) (answer : ℕ) →
        IsAllEvents cpus k found steps answer → SpendNothing steps }
    ensures fold { (from into : CpuId) (found : List ℕ) (steps : List EventStep) →
        IsFoldEvents from into found steps → SpendNothing steps }
    ensures others { (facts : EventFacts) (later earlier : History) (p : ℕ) (steps : List EventStep) →
        HasMade facts later earlier p steps → SpendNothing steps → KeepsSpending later earlier p }
{}

/// The words of a CPU that is online only grow. So the sum of an event lies between what the words were in sum when the
/// call began and what they are when it ends, and is at most what the words of an event may come to, whatever others
/// count in between.
pub fn online_words_grow()
    ensures grow { (facts : EventFacts) (m h : History) (c k : ℕ) → IsLegal facts (m ++ h) →
        cpu_at facts c ≡ Online → IsEvent k →
        word_at (state_after facts h) c k ≤ word_at (state_after facts (m ++ h)) c k }
    ensures between { (facts : EventFacts) (later earlier : History) (p : ℕ) (k : EventId) (found : List ℕ)
        (steps : List EventStep) (answer : ℕ) → HasMade facts later earlier p steps → IsEvent k.number →
        IsAllEvents (online_cpus facts) k found steps answer → SumsBetween facts later earlier k found answer }
    ensures fits { (facts : EventFacts) (h : History) (k : EventId) (found : List ℕ) (steps : List EventStep)
        (answer : ℕ) → IsLegal facts h → IsEvent k.number → IsAllEvents (online_cpus facts) k found steps answer →
        AtMostStands (state_after facts h) k.number (online_cpus facts) found → answer ≤ most_in_sum facts.layout }
{}

/// A word of a CPU that is not online stays 0 once it is 0. So the words of a CPU that was folded are 0 from then on.
pub fn folded_words_are_zero()
    ensures stay { (facts : EventFacts) (m h : History) (c k : ℕ) → IsLegal facts (m ++ h) →
        cpu_at facts c ≢ Online → IsEvent k → word_at (state_after facts h) c k ≡ 0 →
        word_at (state_after facts (m ++ h)) c k ≡ 0 }
    ensures folded { LeavesZeros }
{}
