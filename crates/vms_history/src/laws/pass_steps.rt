ghost use Rattle.std.specs.Prelude.{◌≡◌, ◌≢◌, ℕ, true, Option, List, [], ◌∷◌, ◌++◌};
ghost use Rattle.vms_base.specs.declared.ids.CpuId.{CpuId};
ghost use Rattle.vms_history.specs.declared.events.Event.{Event};
ghost use Rattle.vms_history.specs.Events.{own};
ghost use Rattle.vms_history.specs.Legal.{IsLegal};
ghost use Rattle.vms_history.specs.PassSteps.{GoesOnWithout, HasMade};
ghost use Rattle.vms_history.specs.Passes.{lives_in, owner_in, IsFree};
ghost use Rattle.vms_history.specs.Passes.Role.{Works};

use crate::laws::Table;

/// A step that begins or ends a pass leaves the state, and asks nothing beyond what the rules of the passes ask.
pub fn quiet_steps_leave<T: Table>()
    ensures leaves { (facts : T.Facts) (who : Option CpuId) (step : T.Step) (s : T.State) →
        T.machine.role step ≢ Works → T.machine.effect facts who step s ≡ s }
    ensures asks_nothing { (facts : T.Facts) (h : List (Event T.Step)) (s : T.State) (p : ℕ) (step : T.Step) →
        T.machine.role step ≢ Works → T.machine.Meets facts h s p step }
{}

/// A history goes on without a pass from a moment to itself, and over two stretches if it does over each.
pub fn histories_go_on<T: Table>()
    ensures none { (facts : T.Facts) (h : List (Event T.Step)) (p : ℕ) → IsLegal T.machine facts h →
        lives_in T.machine.role h p ≡ true → GoesOnWithout T.machine facts h h p }
    ensures both { (facts : T.Facts) (last later earlier : List (Event T.Step)) (p : ℕ) →
        GoesOnWithout T.machine facts last later p → GoesOnWithout T.machine facts later earlier p →
        GoesOnWithout T.machine facts last earlier p }
{}

/// What a pass has made: no step yet, one more step, the same steps after others made theirs, and the steps of two
/// calls in a row.
pub fn made_steps_add_up<T: Table>()
    ensures none { (facts : T.Facts) (h : List (Event T.Step)) (p : ℕ) → IsLegal T.machine facts h →
        lives_in T.machine.role h p ≡ true → HasMade T.machine facts h h p [] }
    ensures next { (facts : T.Facts) (later earlier : List (Event T.Step)) (p : ℕ) (steps : List T.Step)
        (step : T.Step) → HasMade T.machine facts later earlier p steps →
        IsLegal T.machine facts (record { caller = p; step = step } ∷ later) →
        HasMade T.machine facts (record { caller = p; step = step } ∷ later) earlier p (steps ++ step ∷ []) }
    ensures others { (facts : T.Facts) (last later earlier : List (Event T.Step)) (p : ℕ)
        (steps : List T.Step) → GoesOnWithout T.machine facts last later p →
        HasMade T.machine facts later earlier p steps → HasMade T.machine facts last earlier p steps }
    ensures both { (facts : T.Facts) (last later earlier : List (Event T.Step)) (p : ℕ)
        (first second : List T.Step) → HasMade T.machine facts last later p second →
        HasMade T.machine facts later earlier p first → HasMade T.machine facts last earlier p (first ++ second) }
{}

/// While no pass that owns a CPU lives, and the main pass makes no event, no event is made for that CPU. The same holds
/// of the control pass.
pub fn free_cpus_are_left_alone<T: Table>()
    ensures { (facts : T.Facts) (h : List (Event T.Step)) (who : Option CpuId) → IsFree T.machine.role h who →
        (e : Event T.Step) (more rest : List (Event T.Step)) →
        IsLegal T.machine facts ((more ++ (e ∷ rest)) ++ h) → own (more ++ (e ∷ rest)) 0 ≡ [] →
        owner_in T.machine.role (rest ++ h) e.caller ≢ who }
{}
