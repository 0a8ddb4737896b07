ghost use Rattle.vms_event_core.specs.declared.states.EventState.{EventState};
ghost use Rattle.vms_event_core.specs.Common.{events, quiet_events};
ghost use Rattle.vms_event_registers.specs.Keeps.{KeepsEvents};
ghost use Rattle.vms_event_registers.specs.PassesKept.{KeepsEvents-begins, KeepsEvents-ends};

use crate::EventRegisters;
use crate::bases::{is_base, may_own};
use crate::opening::opened;
use std::alloc::Global;
use vms_base::{CpuId, Memory};
use vms_event_core::{EventFacts, EventStep};
use vms_history::Table;
use vms_judge::{Role, RoleTable};
use vms_registers::{TableRegisters, owner_at};

impl Table for EventRegisters {
    type Facts = EventFacts;

    type Step = EventStep;

    ghost State = { EventState };

    ghost machine = { events };

    ghost quiet = { quiet_events };
}

impl RoleTable for EventRegisters {
    fn role(step: &EventStep) -> Role {
        match *step {
            EventStep::Split(pass, who) => Role::Begins(pass, who),
            EventStep::Join(pass) => Role::Ends(pass),
            _ => Role::Works,
        }
    }
}

impl TableRegisters for EventRegisters {
    ghost cpus_of = { λ facts. facts.layout.cpus };

    ghost Keeps = { KeepsEvents };

    fn open(alloc: Global, facts: &EventFacts) -> Result<Option<EventRegisters>, Memory> {
        if is_base(facts) {
            Ok(Some(opened(alloc, facts)?))
        } else {
            Ok(None)
        }
    }

    fn cpus(facts: &EventFacts) -> u32 {
        facts.layout.cpus()
    }

    fn may_own(facts: &EventFacts, who: Option<CpuId>) -> bool {
        may_own(facts, who)
    }

    fn may_end(&self, facts: &EventFacts, slot: u32, pass: u64) -> bool {
        self.carried.is_empty(slot as usize)
    }

    fn meets(&self, facts: &EventFacts, slot: u32, pass: u64, step: &EventStep) -> bool {
        match *step {
            EventStep::AddE(event, n) => self.may_count(facts, slot, event, n),
            EventStep::LoadE(cpu, event, v) => self.finds_word(facts, cpu, event, v),
            EventStep::TakeE(cpu, event, v) => self.may_take(facts, slot, cpu, event, v),
            EventStep::AddF(cpu, event, v) => self.may_add(facts, slot, cpu, event, v),
            EventStep::Split(_, _) | EventStep::Join(_) => true,
        }
    }

    fn take(&mut self, facts: &EventFacts, slot: u32, pass: u64, step: &EventStep) {
        match *step {
            EventStep::AddE(event, n) => self.count(facts, CpuId { number: slot }, event, n),
            EventStep::TakeE(cpu, event, v) => self.carry(facts, slot, cpu, event, v),
            EventStep::AddF(cpu, event, v) => self.put_down(facts, slot, cpu, event, v),
            EventStep::LoadE(_, _, _) => {}
            EventStep::Split(_, _) => {}
            EventStep::Join(_) => {}
        }
    }

    ghost begins = { λ facts h held next slot q step r begins keeps.
        KeepsEvents-begins facts h held next slot q step r keeps begins };

    ghost ends = { λ facts h held next slot q step r ends keeps.
        KeepsEvents-ends facts h held next slot q step r keeps ends };
}
