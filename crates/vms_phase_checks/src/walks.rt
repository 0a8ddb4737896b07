ghost use Rattle.std.specs.Prelude.{◌≡◌, ◌≢◌, ◌≤◌, ◌↔◌, ℕ, false, List, [], ◌∷◌, IsTrue, MatchBool, MatchOption};
ghost use Rattle.vms_core.specs.Pages.{History, IsLegal};
ghost use Rattle.vms_core.specs.Steps.{role};
ghost use Rattle.vms_world.specs.Common.{Act, Event, Header, IsHeader, Item, Lane, MakesActs, PageSteps, State, Step};
ghost use Rattle.vms_world.specs.Common.{GivesThresholds, IsValidSize, Works, normal_threshold_of, ZoneSize, acts_of};
ghost use Rattle.vms_world.specs.Common.{facts_of, own};
ghost use Rattle.vms_written.specs.Common.{GoesAlong};
ghost use Rattle.vms_phase_checks.specs.Kept.{FitsSomewhere};
ghost use Rattle.vms_phase_checks.specs.Shown.{ShowsPages};
ghost use Rattle.vms_phase_checks.specs.Walks.{IsAloneIn, IsDueIn, Walked};

use vms_base::Header;
use vms_core::Step;
use vms_page_registers::PageRegisters;
use vms_plans::DueStep;
use vms_registers::Registers;
use vms_text::{Act, Lane};

/// Where a lane's pass stands in the acts of its lines, on the page counters of one phase. It has a fixed size, and the
/// registers of the page counters tell it what stands.
pub trait LaneWalk: Copy {
    // the rules that the lines' calls go by
    ghost pressure: { ZoneSize → ℕ → ℕ → Type 0 };

    ghost normal: { ZoneSize → ℕ → ℕ → Type 0 };

    // the walk stands where pass p of a lane with these acts does after a history of a phase from this state
    ghost Stands: { Header → State → Lane → ℕ → List Act → History → Self → Type 0 };

    /// Before the first act.
    fn begin() -> Self
        ensures { (header : Header) (base : State) (lane : Lane) (p : ℕ) (acts : List Act) (h : History) →
            own h p ≡ [] → Stands header base lane p acts h result };

    /// Goes on by a legal step of its pass: whether the pass's own events with this one begin the events of its lines.
    /// Where they don't, nothing changes.
    fn go(
        &mut self,
        header: &Header,
        registers: &Registers<PageRegisters>,
        lane: Lane,
        acts: &[Act],
        step: &Step,
    ) -> bool
        requires header { IsHeader header.now }
        requires acts { (items : List Item) × FitsSomewhere header.now items × (acts.now ≡ acts_of lane items) }
        requires stands { (base : State) × (p : ℕ) × (h : History)
            × IsAloneIn header.now base lane p (record { caller = p; step = step.now } ∷ h)
            × ShowsPages (facts_of header.now base) h registers.now
            × Stands header.now base lane p acts.now h self.old }
        ensures goes { (base : State) (p : ℕ) (h : History) →
            IsAloneIn header.now base lane p (record { caller = p; step = step.now } ∷ h) →
            ShowsPages (facts_of header.now base) h registers.now →
            Stands header.now base lane p acts.now h self.old →
            MatchBool result (Walked Stands pressure normal header.now base lane p acts.now h step.now self.new)
            (¬ GoesAlong (PageSteps header.now base pressure normal lane p) p acts.now
            (record { caller = p; step = step.now } ∷ h)) }
        ensures same { result ≡ false → self.new ≡ self.old };

    /// Whether the pass has made all acts.
    fn is_done(
        &self,
        header: &Header,
        registers: &Registers<PageRegisters>,
        lane: Lane,
        acts: &[Act],
    ) -> bool
        requires header { IsHeader header.now }
        requires acts { (items : List Item) × FitsSomewhere header.now items × (acts.now ≡ acts_of lane items) }
        requires stands { (base : State) × (p : ℕ) × (h : History) × IsAloneIn header.now base lane p h
            × ShowsPages (facts_of header.now base) h registers.now
            × Stands header.now base lane p acts.now h self.now }
        ensures { (base : State) (p : ℕ) (h : History) → IsAloneIn header.now base lane p h →
            ShowsPages (facts_of header.now base) h registers.now →
            Stands header.now base lane p acts.now h self.now →
            IsTrue result ↔ MakesActs (PageSteps header.now base pressure normal lane p) p acts.now h };

    /// The step of its pass that is due: none where all acts are made.
    fn due(
        &self,
        header: &Header,
        registers: &Registers<PageRegisters>,
        lane: Lane,
        acts: &[Act],
    ) -> Option<DueStep>
        requires header { IsHeader header.now }
        requires acts { (items : List Item) × FitsSomewhere header.now items × (acts.now ≡ acts_of lane items) }
        requires stands { (base : State) × (p : ℕ) × (h : History) × IsAloneIn header.now base lane p h
            × ShowsPages (facts_of header.now base) h registers.now
            × Stands header.now base lane p acts.now h self.now }
        ensures { (base : State) (p : ℕ) (h : History) → IsAloneIn header.now base lane p h →
            ShowsPages (facts_of header.now base) h registers.now →
            Stands header.now base lane p acts.now h self.now →
            MatchOption result (MakesActs (PageSteps header.now base pressure normal lane p) p acts.now h)
            (λ due. (¬ MakesActs (PageSteps header.now base pressure normal lane p) p acts.now h)
            × IsDueIn pressure normal header.now base lane p acts.now h due) };

    // the normal rule gives thresholds, and goes by the kernel's formula for valid sizes and 1 to 128 CPUs
    ghost gives: { GivesThresholds normal };

    ghost exact: { (size : ZoneSize) (online t : ℕ) → IsValidSize size → 1 ≤ online → online ≤ 128 →
        normal size online t ↔ (t ≡ normal_threshold_of size online) };

    // the walk stands there whatever other passes do
    ghost others: { (header : Header) (base : State) (lane : Lane) (p : ℕ) (acts : List Act) (e : Event Step)
        (h : History) (walk : Self) → e.caller ≢ p → Stands header base lane p acts h walk →
        Stands header base lane p acts (e ∷ h) walk };

    // what a pass has made of its acts hangs on its own events alone
    ghost by_own: { (header : Header) (base : State) (lane : Lane) (p : ℕ) (acts : List Act) (h g : History) →
        IsAloneIn header base lane p h → IsAloneIn header base lane p g → own g p ≡ own h p →
        MakesActs (PageSteps header base pressure normal lane p) p acts h →
        MakesActs (PageSteps header base pressure normal lane p) p acts g };
}
