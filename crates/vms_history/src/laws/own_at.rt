ghost use Rattle.std.specs.Prelude.{◌≡◌, ℕ, List, [], ◌∷◌, ◌++◌, map};
ghost use Rattle.std.specs.List.{All};
ghost use Rattle.vms_history.specs.declared.events.Event.{Event};
ghost use Rattle.vms_history.specs.Events.{Extends, own, own_at, after, NewestOwn};
ghost use Rattle.vms_history.specs.Legal.{IsLegal, MadeAt};

use crate::laws::Table;

/// `own_at` lists a caller's own events, each with the history before it. Where a history goes on from an earlier one,
/// the earlier one stood before each later event.
pub fn own_at_is_own<T: Table>()
    ensures events { (h : List (Event T.Step)) (p : ℕ) →
        map (λ (at : Event T.Step × List (Event T.Step)). at.0) (own_at h p) ≡ own h p }
    ensures append { (m h : List (Event T.Step)) (p : ℕ) →
        own_at (m ++ h) p ≡
        map (λ (at : Event T.Step × List (Event T.Step)). (at.0, at.1 ++ h)) (own_at m p) ++ own_at h p }
{}

/// A caller's newest event parts the history into what stood before it and what others did since. Where the caller
/// made steps in a row on top of an earlier history, what stood before the last one goes on from there.
pub fn newest_own_parts<T: Table>()
    ensures parts { (h : List (Event T.Step)) (p : ℕ) (e : Event T.Step)
        (earlier : List (Event T.Step)) → own h p ≡ e ∷ earlier → NewestOwn h p e earlier }
    ensures at { (h : List (Event T.Step)) (p : ℕ) (e : Event T.Step)
        (earlier : List (Event T.Step)) (newest : NewestOwn h p e earlier) →
        own_at h p ≡ (e, newest.before) ∷ own_at newest.before p }
    ensures in_row { (later earlier : List (Event T.Step)) (p : ℕ) (ks : List T.Step) (k : T.Step) →
        Extends later earlier → own later p ≡ after p (ks ++ k ∷ []) (own earlier p) →
        (newest : NewestOwn later p (record { caller = p; step = k }) (after p ks (own earlier p)))
        × Extends newest.before earlier }
{}

/// Each own event of a legal history was made when what stood before it was the whole history, and was legal there.
pub fn own_events_are_legal<T: Table>()
    ensures each { (facts : T.Facts) (h : List (Event T.Step)) (p : ℕ) → IsLegal T.machine facts h →
        All (λ (at : Event T.Step × List (Event T.Step)). MadeAt T.machine facts h p at.0 at.1) (own_at h p) }
    ensures newest { (facts : T.Facts) (h : List (Event T.Step)) (p : ℕ) (e : Event T.Step)
        (earlier : List (Event T.Step)) → IsLegal T.machine facts h →
        (newest : NewestOwn h p e earlier) → MadeAt T.machine facts h p e newest.before }
{}
