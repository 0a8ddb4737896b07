ghost use Rattle.std.specs.Prelude.{◌≡◌, ◌≢◌, ℕ, ◌<◌, ◌≤◌, true, false, Option, Some, None, List, [], ◌∷◌, ◌++◌};
ghost use Rattle.vms_base.specs.declared.ids.CpuId.{CpuId};
ghost use Rattle.vms_history.specs.declared.events.Event.{Event};
ghost use Rattle.vms_history.specs.Events.{own};
ghost use Rattle.vms_history.specs.Legal.{IsLegal, Acts};
ghost use Rattle.vms_history.specs.Passes.{Role, begun_in, begun_after, lives_in, lives_after, owner_in, owner_after};
ghost use Rattle.vms_history.specs.Passes.Role.{Works, Ends};

use crate::laws::Table;

/// A pass that lives has been given its number, and none is given 0.
pub fn live_is_given<T: Table>()
    ensures { (facts : T.Facts) (h : List (Event T.Step)) (q : ℕ) →
        IsLegal T.machine facts h → lives_in T.machine.role h q ≡ true →
        (0 < q) × (q ≤ begun_in T.machine.role h) }
{}

/// A caller that may act has been given its number, which is at most the number of passes begun. A caller other than
/// the main pass lives when it acts, and begins and ends no pass.
pub fn who_may_act<T: Table>()
    ensures given { (facts : T.Facts) (h : List (Event T.Step)) (p : ℕ) (role : Role) →
        IsLegal T.machine facts h → Acts T.machine facts h p role →
        p ≤ begun_in T.machine.role h }
    ensures lives { (facts : T.Facts) (h : List (Event T.Step)) (p : ℕ) (role : Role) →
        Acts T.machine facts h p role → p ≢ 0 → lives_in T.machine.role h p ≡ true }
    ensures works { (facts : T.Facts) (h : List (Event T.Step)) (p : ℕ) (role : Role) →
        Acts T.machine facts h p role → p ≢ 0 → role ≡ Works }
{}

/// A number not yet given has no event and owns no CPU. The main pass, with number 0, owns none either.
pub fn not_given_is_unused<T: Table>()
    ensures own { (facts : T.Facts) (h : List (Event T.Step)) (q : ℕ) →
        IsLegal T.machine facts h → begun_in T.machine.role h < q → own h q ≡ [] }
    ensures owner { (facts : T.Facts) (h : List (Event T.Step)) (q : ℕ) →
        IsLegal T.machine facts h → ((0 < q) × (q ≤ begun_in T.machine.role h) → ⊥) →
        owner_in T.machine.role h q ≡ None }
{}

/// A pass that has begun stays begun, and owns what it owned.
pub fn owner_stays<T: Table>()
    ensures begun { (m h : List (Event T.Step)) →
        begun_in T.machine.role h ≤ begun_in T.machine.role (m ++ h) }
    ensures owner { (facts : T.Facts) (m h : List (Event T.Step)) (q : ℕ) →
        IsLegal T.machine facts (m ++ h) → q ≤ begun_in T.machine.role h →
        owner_in T.machine.role (m ++ h) q ≡ owner_in T.machine.role h q }
{}

/// A pass that owns a CPU has been given its number, and the table lets passes own that CPU.
pub fn owner_may_own<T: Table>()
    ensures may { (facts : T.Facts) (h : List (Event T.Step)) (q : ℕ) (c : CpuId) →
        IsLegal T.machine facts h → owner_in T.machine.role h q ≡ Some c →
        T.machine.MayOwn facts (Some c) }
    ensures given { (facts : T.Facts) (h : List (Event T.Step)) (q : ℕ) (c : CpuId) →
        IsLegal T.machine facts h → owner_in T.machine.role h q ≡ Some c →
        (0 < q) × (q ≤ begun_in T.machine.role h) }
{}

/// A pass that has ended doesn't live again, and makes no further event. So a pass that lives has lived since it began.
pub fn ended_is_over<T: Table>()
    ensures lives { (facts : T.Facts) (m h : List (Event T.Step)) (q : ℕ) →
        IsLegal T.machine facts (m ++ h) → q ≤ begun_in T.machine.role h →
        lives_in T.machine.role h q ≡ false → lives_in T.machine.role (m ++ h) q ≡ false }
    ensures before { (facts : T.Facts) (m h : List (Event T.Step)) (q : ℕ) →
        IsLegal T.machine facts (m ++ h) → q ≤ begun_in T.machine.role h →
        lives_in T.machine.role (m ++ h) q ≡ true → lives_in T.machine.role h q ≡ true }
    ensures own { (facts : T.Facts) (m h : List (Event T.Step)) (q : ℕ) →
        IsLegal T.machine facts (m ++ h) → 0 < q → q ≤ begun_in T.machine.role h →
        lives_in T.machine.role h q ≡ false → own (m ++ h) q ≡ own h q }
{}

/// At most one pass that lives owns a CPU, and at most one control pass lives. So while a pass lives, no other pass
/// acts for the CPU that it owns.
pub fn one_live_owner<T: Table>()
    ensures owner { (facts : T.Facts) (h : List (Event T.Step)) (q r : ℕ) →
        IsLegal T.machine facts h →
        lives_in T.machine.role h q ≡ true → lives_in T.machine.role h r ≡ true →
        owner_in T.machine.role h q ≡ owner_in T.machine.role h r → q ≡ r }
    ensures alone { (facts : T.Facts) (e : Event T.Step) (h : List (Event T.Step)) (p : ℕ) →
        IsLegal T.machine facts (e ∷ h) → e.caller ≢ 0 → lives_in T.machine.role h p ≡ true →
        owner_in T.machine.role h e.caller ≡ owner_in T.machine.role h p → e.caller ≡ p }
{}

/// If every pass has ended, and the main pass made no event since an earlier moment, nobody made one since.
pub fn nothing_follows<T: Table>()
    ensures { (facts : T.Facts) (m h : List (Event T.Step)) →
        IsLegal T.machine facts (m ++ h) →
        ((q : ℕ) → lives_in T.machine.role (m ++ h) q ≡ false) → own m 0 ≡ [] → m ≡ [] }
{}

/// An event of another caller than the main pass changes no pass.
pub fn others_change_no_pass<T: Table>()
    ensures begun { (e : Event T.Step) (h : List (Event T.Step)) → e.caller ≢ 0 →
        begun_in T.machine.role (e ∷ h) ≡ begun_in T.machine.role h }
    ensures lives { (e : Event T.Step) (h : List (Event T.Step)) (q : ℕ) → e.caller ≢ 0 →
        lives_in T.machine.role (e ∷ h) q ≡ lives_in T.machine.role h q }
    ensures owner { (e : Event T.Step) (h : List (Event T.Step)) (q : ℕ) → e.caller ≢ 0 →
        owner_in T.machine.role (e ∷ h) q ≡ owner_in T.machine.role h q }
{}

/// An event of the main pass changes the passes as the role of its step says.
pub fn main_changes_passes<T: Table>()
    ensures begun { (e : Event T.Step) (h : List (Event T.Step)) → e.caller ≡ 0 →
        begun_in T.machine.role (e ∷ h) ≡
        begun_after (T.machine.role e.step) (begun_in T.machine.role h) }
    ensures lives { (e : Event T.Step) (h : List (Event T.Step)) (q : ℕ) → e.caller ≡ 0 →
        lives_in T.machine.role (e ∷ h) q ≡
        lives_after (T.machine.role e.step) q (lives_in T.machine.role h q) }
    ensures owner { (e : Event T.Step) (h : List (Event T.Step)) (q : ℕ) → e.caller ≡ 0 →
        owner_in T.machine.role (e ∷ h) q ≡
        owner_after (T.machine.role e.step) q (owner_in T.machine.role h q) }
{}

/// An event that may be made changes the passes as the role of its step says, whoever makes it.
pub fn role_changes_passes<T: Table>()
    ensures begun { (facts : T.Facts) (e : Event T.Step) (h : List (Event T.Step)) →
        Acts T.machine facts h e.caller (T.machine.role e.step) →
        begun_in T.machine.role (e ∷ h) ≡
        begun_after (T.machine.role e.step) (begun_in T.machine.role h) }
    ensures lives { (facts : T.Facts) (e : Event T.Step) (h : List (Event T.Step)) (q : ℕ) →
        Acts T.machine facts h e.caller (T.machine.role e.step) →
        lives_in T.machine.role (e ∷ h) q ≡
        lives_after (T.machine.role e.step) q (lives_in T.machine.role h q) }
    ensures owner { (facts : T.Facts) (e : Event T.Step) (h : List (Event T.Step)) (q : ℕ) →
        Acts T.machine facts h e.caller (T.machine.role e.step) →
        owner_in T.machine.role (e ∷ h) q ≡
        owner_after (T.machine.role e.step) q (owner_in T.machine.role h q) }
{}

/// The main pass's own events tell who may act. Where a pass ends, that pass's own events count too.
pub fn acting_goes_by_own_events<T: Table>()
    ensures { (facts : T.Facts) (h g : List (Event T.Step)) (p : ℕ) (role : Role) →
        own g 0 ≡ own h 0 → ((q : ℕ) → role ≡ Ends q → own g q ≡ own h q) →
        Acts T.machine facts h p role → Acts T.machine facts g p role }
{}
