ghost use Rattle.std.specs.Prelude.{◌∷◌, ◌++◌};
ghost use Rattle.vms_history.specs.declared.events.Event.{Event};
ghost use Rattle.vms_core.specs.declared.steps.Facts.{Facts};
ghost use Rattle.vms_core.specs.declared.steps.Step.{Step};
ghost use Rattle.vms_core.specs.Laws.{KeepsLaws};
ghost use Rattle.vms_core.specs.NumberChanges.{ChangesNumbers};
ghost use Rattle.vms_core.specs.Pages.{History, IsLegal};

mod ends;
mod knowledge;
mod marks;
mod spending;
mod taken;

pub use ends::{complete_histories_carry_nothing, settled_ends_may_begin, systems_keep_off};
pub use knowledge::{
    control_steps_stay_allowed, exchanges_win_or_miss, main_pass_knows_what_is_free,
    own_steps_stay_allowed, passes_know_what_they_own,
};
pub use marks::{mark_numbers_grow, marks_stand_between_loads};
pub use spending::owners_spend_by_own_steps;
pub use taken::offline_groups_are_found_once;

/// All laws of the page counters hold after every legal history. Every beginning of a legal history is legal, so they
/// hold after each of its steps.
pub fn laws_are_kept()
    ensures { (facts : Facts) (more h : History) → IsLegal facts (more ++ h) → KeepsLaws facts h }
{}

/// What the newest event of a legal history makes of each number of the state.
pub fn steps_change_numbers()
    ensures { (facts : Facts) (e : Event Step) (h : History) → IsLegal facts (e ∷ h) → ChangesNumbers facts e h }
{}
