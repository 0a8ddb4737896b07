ghost use Rattle.std.specs.Prelude.{◌≡◌, ℕ, List, ◌++◌};
ghost use Rattle.vms_group_core.specs.declared.call_values.GroupAnswer.{GroupAnswer};
ghost use Rattle.vms_group_core.specs.declared.call_values.GroupCall.{GroupCall};
ghost use Rattle.vms_group_core.specs.declared.steps.GroupFacts.{GroupFacts};
ghost use Rattle.vms_group_core.specs.declared.steps.GroupStep.{GroupStep};
ghost use Rattle.vms_group_core.specs.Histories.{History};
ghost use Rattle.vms_group_core.specs.Calls.{IsGroupCall, read_group_call, group_spent};
ghost use Rattle.vms_group_core.specs.CallLaws.{HasMade, MayCall, MayMake, CarryAsBefore, SpendNothing, SpendsSince};
ghost use Rattle.vms_group_core.specs.CallLaws.{KeepsSpending};

/// What a call answered can be read off its steps, and so can the steps that follow it.
pub fn answers_are_read()
    ensures { (facts : GroupFacts) (call : GroupCall) (steps rest : List GroupStep) (answer : GroupAnswer) →
        IsGroupCall facts call steps answer → read_group_call facts call (steps ++ rest) ≡ (answer, rest) }
{}

/// A pass may make the steps of each call, whatever others do between them.
pub fn calls_may_be_made()
    ensures { (facts : GroupFacts) (h : History) (p : ℕ) (call : GroupCall) (steps : List GroupStep)
        (answer : GroupAnswer) → MayCall facts h p call → IsGroupCall facts call steps answer →
        MayMake facts p h steps }
{}

/// A call leaves its caller carrying what it carried before.
pub fn calls_carry_nothing()
    ensures { (facts : GroupFacts) (call : GroupCall) (steps : List GroupStep) (answer : GroupAnswer) →
        IsGroupCall facts call steps answer → CarryAsBefore facts.tree steps }
{}

/// A change spends exactly its size on its group, of the CPU that its caller owns. The other calls spend nothing.
pub fn changes_alone_spend()
    ensures call { (facts : GroupFacts) (later earlier : History) (p : ℕ) (call : GroupCall)
        (steps : List GroupStep) (answer : GroupAnswer) → HasMade facts later earlier p steps →
        IsGroupCall facts call steps answer → SpendsSince later earlier p (group_spent call) }
    ensures nothing { (facts : GroupFacts) (call : GroupCall) (steps : List GroupStep) (answer : GroupAnswer) →
        IsGroupCall facts call steps answer → ((g : ℕ) → group_spent call g ≡ 0) → SpendNothing steps }
    ensures others { (facts : GroupFacts) (later earlier : History) (p : ℕ) (steps : List GroupStep) →
        HasMade facts later earlier p steps → SpendNothing steps → KeepsSpending later earlier p }
{}
