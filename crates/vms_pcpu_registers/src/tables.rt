ghost use Rattle.vms_pcpu_core.specs.Common.{LockedState, percpu, quiet_percpu};
ghost use Rattle.vms_pcpu_registers.specs.Keeps.{KeepsPercpu};
ghost use Rattle.vms_pcpu_registers.specs.PassesKept.{KeepsPercpu-begins, KeepsPercpu-ends};

use crate::PcpuRegisters;
use crate::bases::{is_base, may_own};
use crate::opening::opened;
use std::alloc::Global;
use vms_base::{CpuId, Memory};
use vms_history::Table;
use vms_judge::{Role, RoleTable};
use vms_pcpu_core::{PcpuFacts, PcpuStep};
use vms_registers::TableRegisters;

impl Table for PcpuRegisters {
    type Facts = PcpuFacts;

    type Step = PcpuStep;

    ghost State = { LockedState };

    ghost machine = { percpu };

    ghost quiet = { quiet_percpu };
}

impl RoleTable for PcpuRegisters {
    fn role(step: &PcpuStep) -> Role {
        match *step {
            PcpuStep::Split(pass, who) => Role::Begins(pass, who),
            PcpuStep::Join(pass) => Role::Ends(pass),
            _ => Role::Works,
        }
    }
}

impl TableRegisters for PcpuRegisters {
    ghost cpus_of = { λ facts. facts.layout.cpus };

    ghost Keeps = { KeepsPercpu };

    fn open(alloc: Global, facts: &PcpuFacts) -> Result<Option<PcpuRegisters>, Memory> {
        if is_base(facts) {
            Ok(Some(opened(alloc, facts)?))
        } else {
            Ok(None)
        }
    }

    fn cpus(facts: &PcpuFacts) -> u32 {
        facts.layout.cpus()
    }

    fn may_own(facts: &PcpuFacts, who: Option<CpuId>) -> bool {
        may_own(facts, who)
    }

    fn may_end(&self, facts: &PcpuFacts, slot: u32, pass: u64) -> bool {
        self.locks.is_empty(slot as usize)
    }

    fn meets(&self, facts: &PcpuFacts, slot: u32, pass: u64, step: &PcpuStep) -> bool {
        match *step {
            PcpuStep::AddL(counter, amount) => self.may_add_local(facts, slot, counter, amount),
            PcpuStep::LoadL(counter, cpu, v) => self.finds_local(facts, counter, cpu, v),
            PcpuStep::LoadC(counter, v) => self.finds_count(facts, counter, v),
            PcpuStep::Won(counter) => self.may_win(facts, counter),
            PcpuStep::Missed(counter) => self.may_miss(facts, counter),
            PcpuStep::TakeL(counter, cpu, v) => self.may_take(facts, slot, counter, cpu, v),
            PcpuStep::AddC(counter, added) => self.may_add_count(facts, slot, counter, added),
            PcpuStep::Unlock(counter) => self.may_unlock(facts, slot, counter),
            PcpuStep::Split(_, _) | PcpuStep::Join(_) => true,
        }
    }

    fn take(&mut self, facts: &PcpuFacts, slot: u32, pass: u64, step: &PcpuStep) {
        match *step {
            PcpuStep::AddL(counter, amount) => {
                self.add_local(facts, CpuId { number: slot }, counter, amount)
            }
            PcpuStep::Won(counter) => self.set_lock(facts, slot, counter, true),
            PcpuStep::TakeL(counter, cpu, v) => self.take_local(facts, slot, counter, cpu, v),
            PcpuStep::AddC(counter, added) => self.add_count(facts, slot, counter, added),
            PcpuStep::Unlock(counter) => self.set_lock(facts, slot, counter, false),
            PcpuStep::LoadL(_, _, _) => {}
            PcpuStep::LoadC(_, _) => {}
            PcpuStep::Missed(_) => {}
            PcpuStep::Split(_, _) => {}
            PcpuStep::Join(_) => {}
        }
    }

    ghost begins = { λ facts h held next slot q step r begins keeps.
        KeepsPercpu-begins facts h held next slot q step r keeps begins };

    ghost ends = { λ facts h held next slot q step r ends keeps.
        KeepsPercpu-ends facts h held next slot q step r keeps ends };
}
