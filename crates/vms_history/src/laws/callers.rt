ghost use Rattle.std.specs.Prelude.{◌≡◌, ◌≢◌, ℕ, List, [], ◌∷◌, ◌++◌};
ghost use Rattle.vms_history.specs.declared.events.Event.{Event};
ghost use Rattle.vms_history.specs.Events.{Extends, own, after};

use crate::laws::Table;

/// Which events of a list are a caller's own.
pub fn own_of_list<T: Table>()
    ensures mine { (e : Event T.Step) (h : List (Event T.Step)) (p : ℕ) →
        e.caller ≡ p → own (e ∷ h) p ≡ e ∷ own h p }
    ensures others { (e : Event T.Step) (h : List (Event T.Step)) (p : ℕ) →
        e.caller ≢ p → own (e ∷ h) p ≡ own h p }
    ensures append { (m h : List (Event T.Step)) (p : ℕ) → own (m ++ h) p ≡ own m p ++ own h p }
    ensures again { (h : List (Event T.Step)) (p : ℕ) → own (own h p) p ≡ own h p }
{}

/// What a caller's own events are after steps of one caller.
pub fn own_after_steps<T: Table>()
    ensures mine { (p : ℕ) (ks : List T.Step) (h : List (Event T.Step)) →
        own (after p ks h) p ≡ after p ks (own h p) }
    ensures others { (p : ℕ) (ks : List T.Step) (h : List (Event T.Step)) (q : ℕ) →
        q ≢ p → own (after p ks h) q ≡ own h q }
    ensures on_top { (m h : List (Event T.Step)) (p : ℕ) (ks : List T.Step) →
        own (m ++ h) p ≡ after p ks (own h p) → own m p ≡ after p ks [] }
{}

/// Steps in a row, and histories below them.
pub fn steps_in_a_row<T: Table>()
    ensures steps { (p : ℕ) (ks js : List T.Step) (h : List (Event T.Step)) →
        after p (ks ++ js) h ≡ after p js (after p ks h) }
    ensures below { (p : ℕ) (ks : List T.Step) (h g : List (Event T.Step)) →
        after p ks (h ++ g) ≡ after p ks h ++ g }
{}

/// A history extends itself, what its earlier parts extend, and what stood before a caller's steps; each caller's own
/// events then extend those of the earlier part.
pub fn histories_extend<T: Table>()
    ensures same { (h : List (Event T.Step)) → Extends h h }
    ensures both { (last later earlier : List (Event T.Step)) →
        Extends last later → Extends later earlier → Extends last earlier }
    ensures after { (p : ℕ) (ks : List T.Step) (h : List (Event T.Step)) →
        Extends (after p ks h) h }
    ensures own { (later earlier : List (Event T.Step)) (p : ℕ) →
        Extends later earlier → Extends (own later p) (own earlier p) }
{}
