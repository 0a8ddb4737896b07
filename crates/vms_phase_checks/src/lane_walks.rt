use crate::LaneWalk;
use std::alloc::Global;
use std::marker::Model;
use vms_base::{Header, Memory, Row};
use vms_core::Step;
use vms_page_registers::PageRegisters;
use vms_registers::Registers;
use vms_text::{Act, Lane};

/// The walks of the lanes, each in the slot where the pass of its lane stands: none where none has begun.
#[derive(Debug, Drop)]
pub(crate) struct LaneWalks<W> {
    walks: Vec<Option<W>>,
}

impl<W> Model for LaneWalks<W> {
    ghost use Rattle.std.specs.Prelude.{List, Option};

    ghost Value = { List (Option W) };

    ghost view = { λ lanes. lanes.walks.items };
}

impl<W: LaneWalk> LaneWalks<W> {
    ghost use Rattle.std.specs.Prelude.{◌≡◌, ◌<◌, ◌∷◌, ℕ, false, List, None, Some, IfOk, MatchBool, length, replicate};
    ghost use Rattle.std.specs.Prelude.{slice_index_or, slice_set};
    ghost use Rattle.vms_core.specs.Pages.{History};
    ghost use Rattle.vms_world.specs.Common.{IsHeader, Item, PageSteps, State, acts_of, facts_of};
    ghost use Rattle.vms_written.specs.Common.{GoesAlong};
    ghost use Rattle.vms_phase_checks.specs.Kept.{FitsSomewhere};
    ghost use Rattle.vms_phase_checks.specs.Shown.{ShowsPages};
    ghost use Rattle.vms_phase_checks.specs.Walks.{IsAloneIn, Walked};

    /// So many slots without a walk.
    pub(crate) fn none(alloc: Global, count: usize) -> Result<LaneWalks<W>, Memory>
        ensures { IfOk result (λ walks. walks ≡ replicate count None) }
    {
        Ok(LaneWalks {
            walks: Row::filled(alloc, count, None)?.into_items(),
        })
    }

    /// The walk in a slot.
    #[inline]
    pub(crate) fn get(&self, slot: usize) -> Option<W>
        requires { slot < length self.now }
        ensures { slice_index_or self.now slot None ≡ result }
    {
        self.walks[slot]
    }

    #[inline]
    pub(crate) fn set(&mut self, slot: usize, walk: Option<W>)
        requires { slot < length self.old }
        ensures { self.new ≡ slice_set self.old slot walk }
    {
        self.walks[slot] = walk;
    }

    /// Goes on with the walk in a slot by a legal step of its pass: whether it went on. Where it didn't, or there is no
    /// walk, nothing changes.
    #[inline]
    pub(crate) fn go(
        &mut self,
        slot: usize,
        header: &Header,
        registers: &Registers<PageRegisters>,
        lane: Lane,
        acts: &[Act],
        step: &Step,
    ) -> bool
        requires slot { slot < length self.old }
        requires header { IsHeader header.now }
        requires acts { (items : List Item) × FitsSomewhere header.now items × (acts.now ≡ acts_of lane items) }
        requires stands { (walk : W) → slice_index_or self.old slot None ≡ Some walk → (base : State) × (p : ℕ)
            × (h : History) × IsAloneIn header.now base lane p (record { caller = p; step = step.now } ∷ h)
            × ShowsPages (facts_of header.now base) h registers.now × W.Stands header.now base lane p acts.now h walk }
        ensures goes { (walk : W) (base : State) (p : ℕ) (h : History) → slice_index_or self.old slot None ≡ Some walk →
            IsAloneIn header.now base lane p (record { caller = p; step = step.now } ∷ h) →
            ShowsPages (facts_of header.now base) h registers.now → W.Stands header.now base lane p acts.now h walk →
            MatchBool result
            ((later : W) × Walked W.Stands W.pressure W.normal header.now base lane p acts.now h step.now later
            × (self.new ≡ slice_set self.old slot (Some later)))
            (¬ GoesAlong (PageSteps header.now base W.pressure W.normal lane p) p acts.now
            (record { caller = p; step = step.now } ∷ h)) }
        ensures same { result ≡ false → self.new ≡ self.old }
    {
        let Some(walk) = &mut self.walks[slot] else {
            return false;
        };
        walk.go(header, registers, lane, acts, step)
    }
}
