ghost use Rattle.std.specs.Prelude.{◌≡◌, ◌≢◌, ℕ, List, ◌∷◌, All};
ghost use Rattle.vms_core.specs.Pages.{History};
ghost use Rattle.vms_world.specs.Common.{Act, Event, Fits, Header, Item, Lane, PageSteps, Start, State, Step, acts_of};
ghost use Rattle.vms_written.specs.Common.{GoesAlong};
ghost use Rattle.vms_own_acts.specs.Common.{IsHistoryFor};
ghost use Rattle.vms_walks.specs.Walks.{IsPageAct, StandsAt};
ghost use Rattle.vms_walks.specs.declared.walks.Walk.{Walk};

use vms_cursors::cursors_can_be_completed;
use vms_own_acts::RuleFunctions;

/// Where a walk stands, its pass goes along the acts of its lane. It stands there whatever other passes do.
pub fn walks_go_along<R: RuleFunctions>()
    ensures along { (header : Header) (base : State) (lane : Lane) (p : ℕ) (acts : List Act) (walk : Walk)
        (h : History) → IsHistoryFor header base lane p h →
        StandsAt header base R.pressure R.normal lane p acts walk h →
        GoesAlong (PageSteps header base R.pressure R.normal lane p) p acts h }
    ensures others { (header : Header) (base : State) (lane : Lane) (p : ℕ) (acts : List Act) (walk : Walk)
        (e : Event Step) (h : History) → e.caller ≢ p →
        StandsAt header base R.pressure R.normal lane p acts walk h →
        StandsAt header base R.pressure R.normal lane p acts walk (e ∷ h) }
{
    cursors_can_be_completed::<R>();
}

/// The acts of lines that fit make calls on counters, zones and nodes of the layout, and change a counter by at most
/// the volume of a CPU.
pub fn fitting_lines_are_page_acts()
    ensures { (header : Header) (start : Start) (items : List Item) (lane : Lane) → Fits header start items →
        All (λ act. IsPageAct header.layout lane act) (acts_of lane items) }
{}
