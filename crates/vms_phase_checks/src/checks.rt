use crate::lane_walks::LaneWalks;
use crate::slots::{lane_for, slot_for};
use crate::{EventCause, LaneActs, LaneWalk};
use std::alloc::Global;
use vms_base::{CpuId, Header, Memory, Row};
use vms_core::{Facts, State, Step};
use vms_judge::{Role, RoleTable};
use vms_page_registers::PageRegisters;
use vms_registers::{Registers, owner_at};
use vms_text::Item;
use vms_written_lines::WideStep;

/// The page events of a phase so far, as far as the next one is judged by them.
#[derive(Debug, Drop)]
pub struct PhaseCheck<W> {
    /// The page counters that the phase began with.
    pub(crate) facts: Facts,
    pub(crate) registers: Registers<PageRegisters>,
    /// The acts of the phase's lines by lane.
    pub(crate) lanes: LaneActs,
    /// The walks of the lanes whose passes have begun.
    pub(crate) walks: LaneWalks<W>,
    /// How many events there are.
    pub(crate) events: u32,
}

impl<W: LaneWalk> PhaseCheck<W> {
    ghost use Rattle.std.specs.Prelude.{◌≡◌, ◌≢◌, ◌+◌, ◌<◌, ◌≤◌, ◌^◌, ◌↔◌, ℕ, [], ◌∷◌, List, IfOk, IsSome, IsTrue};
    ghost use Rattle.std.specs.Prelude.{MatchResult, length, slice_index_or};
    ghost use Rattle.vms_core.specs.Pages.{History, IsLegal, state_after};
    ghost use Rattle.vms_world.specs.Common.{IsBase, settled, State as StateOf, Step as StepOf, Ends};
    ghost use Rattle.vms_world.specs.Common.{Header as HeaderOf, Works, Item as ItemOf, IsHeader, facts_of};
    ghost use Rattle.vms_core.specs.Steps.{role};
    ghost use Rattle.vms_history.specs.Passes.Role.{Begins};
    ghost use Rattle.vms_written.specs.Common.{IsWrittenPhase};
    ghost use Rattle.vms_written_lines.specs.WideSteps.{step_of};
    ghost use Rattle.vms_phase_checks.specs.Checks.{Checks, IsEventFault, MayCheck};
    ghost use Rattle.vms_phase_checks.specs.Kept.{FitsSomewhere, KeepsToLines};
    ghost use Rattle.vms_phase_checks.specs.Taken.{MayTake, Takes};

    /// The check of a phase of these lines, which begins with these page counters, before its first event.
    pub fn open(
        alloc: Global,
        header: &Header,
        base: State,
        items: &[Item],
    ) -> Result<PhaseCheck<W>, Memory>
        requires header { IsHeader header.now }
        requires base { IsBase (facts_of header.now base) }
        requires items { FitsSomewhere header.now items.now }
        ensures { IfOk result (λ check. Checks W.Stands W.pressure W.normal header.now base items.now [] check) }
    {
        let (lanes, walks) = lanes_of(alloc, header.layout.cpus(), items)?;
        let (facts, registers) = opened(alloc, header, base)?;
        Ok(PhaseCheck {
            facts,
            registers,
            lanes,
            walks,
            events: 0,
        })
    }

    /// Takes the next event: a step by this caller. One that may not follow is refused with its first cause, `Illegal`
    /// or `NotInScript`, and nothing changes then.
    pub fn take(&mut self, header: &Header, caller: u64, step: &WideStep) -> Result<(), EventCause>
        requires header { IsHeader header.now }
        requires check { MayCheck W.Stands W.pressure W.normal header.now self.old }
        requires few { self.old.events < 2 ^ 31 }
        ensures { (s : StateOf) (items : List ItemOf) (h : History) → FitsSomewhere header.now items →
            Checks W.Stands W.pressure W.normal header.now s items h self.old →
            MatchResult result
            (λ _. (taken : StepOf) × (step_of step.now ≡ Some taken) × Checks W.Stands W.pressure W.normal header.now
            s items (record { caller = caller; step = taken } ∷ h) self.new)
            (λ cause. (self.new ≡ self.old)
            × IsEventFault W.pressure W.normal header.now s items h caller step.now cause) }
    {
        let narrowed = step.narrow();
        let Some(step) = &narrowed else {
            return Err(EventCause::Illegal);
        };
        if !self.registers.judges(&self.facts, caller, step) {
            return Err(EventCause::Illegal);
        }
        self.take_legal(header, caller, step)
    }

    /// Whether the events are a whole phase: each lane with lines has had its pass, and every pass has ended.
    pub fn is_whole(&self) -> bool
        requires { (header : HeaderOf) × MayCheck W.Stands W.pressure W.normal header self.now }
        ensures { (header : HeaderOf) (s : StateOf) (items : List ItemOf) (h : History) →
            Checks W.Stands W.pressure W.normal header s items h self.now →
            IsTrue result ↔ IsWrittenPhase header W.pressure W.normal s items h }
    {
        self.has_begun_all(self.facts.layout.cpus()) && self.registers.all_ended(&self.facts)
    }

    /// The page counters as the next phase begins with them.
    pub fn settled(&self, alloc: Global) -> Result<State, Memory>
        ensures { (header : HeaderOf) (s : StateOf) (items : List ItemOf) (h : History) →
            Checks W.Stands W.pressure W.normal header s items h self.now →
            IfOk result (λ next. next ≡ settled (state_after (facts_of header s) h)) }
    {
        self.registers.own().settled(alloc)
    }

    /// How many events there are.
    #[inline]
    pub fn events(&self) -> u32
        ensures { result ≡ self.now.events }
    {
        self.events
    }

    /// Takes a legal event, if it keeps to the lines.
    fn take_legal(&mut self, header: &Header, caller: u64, step: &Step) -> Result<(), EventCause>
        requires header { IsHeader header.now }
        requires check { MayTake W.Stands W.pressure W.normal header.now caller step.now self.old }
        requires few { self.old.events < 2 ^ 31 }
        ensures { Takes W.Stands W.pressure W.normal header.now caller step.now self.old self.new result }
    {
        match PageRegisters::role(step) {
            Role::Works => self.work(header, caller, step),
            Role::Begins(_, who) => self.begin(header, who, step),
            Role::Ends(pass) => self.end(header, pass, step),
        }
    }

    /// Takes a legal step of a pass.
    fn work(&mut self, header: &Header, caller: u64, step: &Step) -> Result<(), EventCause>
        requires header { IsHeader header.now }
        requires check { MayTake W.Stands W.pressure W.normal header.now caller step.now self.old }
        requires works { role step.now ≡ Works }
        requires few { self.old.events < 2 ^ 31 }
        ensures { Takes W.Stands W.pressure W.normal header.now caller step.now self.old self.new result }
    {
        let Some((slot, pass)) = self.registers.slot(caller) else {
            return Err(EventCause::NotInScript);
        };
        let lane = lane_for(owner_at(header.layout.cpus(), slot));
        let acts = self.lanes.at(slot);
        if !self
            .walks
            .go(slot as usize, header, &self.registers, lane, acts, step)
        {
            return Err(EventCause::NotInScript);
        }
        self.registers.take(&self.facts, pass, step);
        self.events += 1;
        Ok(())
    }

    /// Begins the pass that owns a CPU, or the control pass.
    fn begin(&mut self, header: &Header, who: Option<CpuId>, step: &Step) -> Result<(), EventCause>
        requires header { IsHeader header.now }
        requires check { MayTake W.Stands W.pressure W.normal header.now 0 step.now self.old }
        requires begins { (q : ℕ) × (role step.now ≡ Begins q who) }
        requires few { self.old.events < 2 ^ 31 }
        ensures { Takes W.Stands W.pressure W.normal header.now 0 step.now self.old self.new result }
    {
        let slot = slot_for(header.layout.cpus(), who);
        if self.lanes.at(slot).is_empty() {
            return Err(EventCause::NotInScript);
        }
        if self.walks.get(slot as usize).is_some() {
            return Err(EventCause::NotInScript);
        }
        self.registers.take(&self.facts, 0, step);
        self.walks.set(slot as usize, Some(W::begin()));
        self.events += 1;
        Ok(())
    }

    /// Ends a pass.
    fn end(&mut self, header: &Header, pass: u32, step: &Step) -> Result<(), EventCause>
        requires header { IsHeader header.now }
        requires check { MayTake W.Stands W.pressure W.normal header.now 0 step.now self.old }
        requires ends { role step.now ≡ Ends pass }
        requires few { self.old.events < 2 ^ 31 }
        ensures { Takes W.Stands W.pressure W.normal header.now 0 step.now self.old self.new result }
    {
        let Some((slot, _)) = self.registers.slot(pass as u64) else {
            return Err(EventCause::NotInScript);
        };
        let Some(walk) = self.walks.get(slot as usize) else {
            return Err(EventCause::NotInScript);
        };
        let lane = lane_for(owner_at(header.layout.cpus(), slot));
        if !walk.is_done(header, &self.registers, lane, self.lanes.at(slot)) {
            return Err(EventCause::NotInScript);
        }
        self.registers.take(&self.facts, 0, step);
        self.events += 1;
        Ok(())
    }

    /// Whether a pass of each lane with lines has begun.
    fn has_begun_all(&self, cpus: u32) -> bool
        requires lists { length self.now.lanes ≡ cpus + 1 }
        requires walks { length self.now.walks ≡ cpus + 1 }
        requires cpus { cpus ≤ 128 }
        ensures { IsTrue result ↔ ((slot : ℕ) → slot ≤ cpus → slice_index_or self.now.lanes slot [] ≢ [] →
            IsSome (slice_index_or self.now.walks slot None)) }
    {
        for slot in 0..cpus + 1 {
            if !self.lanes.at(slot).is_empty() && self.walks.get(slot as usize).is_none() {
                return false;
            }
        }
        true
    }
}

ghost use Rattle.std.specs.Prelude.{◌≡◌, ◌≤◌, ◌+◌, [], None, All, IfOk, replicate};
ghost use Rattle.vms_world.specs.Common.{IsBase, facts_of as facts_from};
ghost use Rattle.vms_phase_checks.specs.Shown.{ShowsPages};
ghost use Rattle.vms_phase_checks.specs.Slots.{AreLaneActs, HasSlot};

/// What the page counters are told of a phase that begins with these ones.
fn facts_of(alloc: Global, header: &Header, base: State) -> Result<Facts, Memory>
    ensures { IfOk result (λ facts. facts ≡ facts_from header.now base) }
{
    let sizes = Row::from_slice(alloc, header.sizes.as_slice())?;
    let layout = header.layout.copied();
    Ok(Facts {
        layout,
        sizes,
        base,
    })
}

/// That, and the registers of a phase without events.
fn opened(
    alloc: Global,
    header: &Header,
    base: State,
) -> Result<(Facts, Registers<PageRegisters>), Memory>
    requires { IsBase (facts_from header.now base) }
    ensures { IfOk result (λ made. (made.0 ≡ facts_from header.now base)
        × ShowsPages (facts_from header.now base) [] made.1) }
{
    let facts = facts_of(alloc, header, base)?;
    match Registers::<PageRegisters>::open(alloc, &facts)? {
        Some(registers) => Ok((facts, registers)),
        None => Err(Memory),
    }
}

/// The acts of the lines by lane, and no walk of any lane.
fn lanes_of<W: LaneWalk>(
    alloc: Global,
    cpus: u32,
    items: &[Item],
) -> Result<(LaneActs, LaneWalks<W>), Memory>
    requires cpus { cpus ≤ 128 }
    requires slots { All (λ item. HasSlot cpus item.lane) items.now }
    ensures acts { IfOk result (λ made. AreLaneActs cpus items.now made.0) }
    ensures walks { IfOk result (λ made. made.1 ≡ replicate (cpus + 1) None) }
{
    let lanes = LaneActs::of(alloc, cpus, items)?;
    let walks = LaneWalks::none(alloc, cpus as usize + 1)?;
    Ok((lanes, walks))
}
