ghost use Rattle.std.specs.Prelude.{List, ◌∷◌, ◌++◌};
ghost use Rattle.vms_history.specs.declared.events.Event.{Event};
ghost use Rattle.vms_history.specs.Legal.{IsLegal, Acts, state_after};

use crate::laws::Table;

/// Every beginning of a legal history is legal, and a history may begin with its facts.
pub fn prefix_is_legal<T: Table>()
    ensures prefix { (facts : T.Facts) (more h : List (Event T.Step)) →
        IsLegal T.machine facts (more ++ h) → IsLegal T.machine facts h }
    ensures base { (facts : T.Facts) (h : List (Event T.Step)) →
        IsLegal T.machine facts h → T.machine.CanBegin facts }
{}

/// The newest event of a legal history was made by a caller that might act, and met its condition.
pub fn newest_event_is_legal<T: Table>()
    ensures before { (facts : T.Facts) (e : Event T.Step) (h : List (Event T.Step)) →
        IsLegal T.machine facts (e ∷ h) → IsLegal T.machine facts h }
    ensures acts { (facts : T.Facts) (e : Event T.Step) (h : List (Event T.Step)) →
        IsLegal T.machine facts (e ∷ h) →
        Acts T.machine facts h e.caller (T.machine.role e.step) }
    ensures meets { (facts : T.Facts) (e : Event T.Step) (h : List (Event T.Step)) →
        IsLegal T.machine facts (e ∷ h) →
        T.machine.Meets facts h (state_after T.machine facts h) e.caller e.step }
{}
