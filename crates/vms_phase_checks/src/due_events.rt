use crate::slots::lane_for;
use crate::told_steps::told_step;
use crate::{LaneWalk, PhaseCheck};
use vms_base::Header;
use vms_core::Step;
use vms_plans::DueStep;
use vms_registers::owner_at;

/// What is due of a phase.
#[derive(Clone, Copy, Debug, PartialEq, Eq)]
pub enum DueEvent {
    /// This step by this caller.
    Event(u32, Step),
    /// No event.
    Nothing,
    /// An event that can't be told.
    Untold,
}

impl<W: LaneWalk> PhaseCheck<W> {
    ghost use Rattle.std.specs.Prelude.{◌≡◌, ◌+◌, ◌≤◌, List, length};
    ghost use Rattle.vms_core.specs.Pages.{History};
    ghost use Rattle.vms_world.specs.Common.{IsHeader, Item as ItemOf, State as StateOf};
    ghost use Rattle.vms_phase_checks.specs.Checks.{Checks, IsDueOf, MayCheck};
    ghost use Rattle.vms_phase_checks.specs.Kept.{FitsSomewhere};

    /// The step of a caller's pass that is due: none where the pass has made all acts of its lane, or doesn't live.
    pub fn due(&self, header: &Header, caller: u64) -> Option<DueStep>
        requires header { IsHeader header.now }
        requires check { MayCheck W.Stands W.pressure W.normal header.now self.now }
        ensures { (s : StateOf) (items : List ItemOf) (h : History) → FitsSomewhere header.now items →
            Checks W.Stands W.pressure W.normal header.now s items h self.now →
            IsDueOf W.pressure W.normal header.now s items h caller result }
    {
        let Some((slot, _)) = self.registers.slot(caller) else {
            return None;
        };
        let Some(walk) = self.walks.get(slot as usize) else {
            return None;
        };
        let lane = lane_for(owner_at(header.layout.cpus(), slot));
        walk.due(header, &self.registers, lane, self.lanes.at(slot))
    }

    /// The event that is due of a caller's pass: the step that is due of it with the numbers that stand, or the one
    /// that ends it. Nothing where the pass doesn't live. No clause speaks of it.
    pub fn due_of(&self, header: &Header, caller: u64) -> DueEvent
        requires header { IsHeader header.now }
        requires check { MayCheck W.Stands W.pressure W.normal header.now self.now }
    {
        let Some((slot, pass)) = self.registers.slot(caller) else {
            return DueEvent::Nothing;
        };
        let Some(due) = self.due(header, caller) else {
            return DueEvent::Event(0, Step::Join(pass));
        };
        let lane = lane_for(owner_at(header.layout.cpus(), slot));
        match told_step(self.registers.own().words(), &self.facts, lane, due) {
            Some(step) => DueEvent::Event(pass, step),
            None => DueEvent::Untold,
        }
    }

    /// The event that is due of the first lane whose lines aren't over: the one that begins its pass, or what is due of
    /// that. Nothing where the lines of all lanes are over. No clause speaks of it.
    pub fn first_due(&self, header: &Header) -> DueEvent
        requires header { IsHeader header.now }
        requires check { MayCheck W.Stands W.pressure W.normal header.now self.now }
    {
        let cpus = header.layout.cpus();
        let begun = self.begun(cpus);
        for slot in 0..cpus + 1 {
            if self.lanes.at(slot).is_empty() {
                continue;
            }
            if self.walks.get(slot as usize).is_none() {
                return DueEvent::Event(0, Step::Split(begun + 1, owner_at(cpus, slot)));
            }
            if let Some(pass) = self.pass_in(slot, begun) {
                return self.due_of(header, pass);
            }
        }
        DueEvent::Nothing
    }

    /// How many lanes have had their pass.
    fn begun(&self, cpus: u32) -> u32
        requires walks { length self.now.walks ≡ cpus + 1 }
        requires cpus { cpus ≤ 128 }
        ensures { result ≤ 129 }
    {
        let mut count = 0;
        for slot in 0..cpus + 1 {
            if self.walks.get(slot as usize).is_some() {
                count += 1;
            }
        }
        count
    }

    /// The pass that stands in a slot, one of so many that have begun.
    fn pass_in(&self, slot: u32, begun: u32) -> Option<u64> {
        for pass in 0..begun {
            match self.registers.slot(pass as u64 + 1) {
                Some((here, _)) if here == slot => return Some(pass as u64 + 1),
                _ => {}
            }
        }
        None
    }
}
