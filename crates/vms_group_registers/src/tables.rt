ghost use Rattle.vms_group_core.specs.declared.states.GroupState.{GroupState};
ghost use Rattle.vms_group_registers.specs.Bounded.{bounded_groups, quiet_bounded};
ghost use Rattle.vms_group_registers.specs.Keeps.{KeepsGroups};
ghost use Rattle.vms_group_registers.specs.PassesKept.{KeepsGroups-begins, KeepsGroups-ends};

use crate::bases::is_base;
use crate::opening::opened;
use crate::{BoundedFacts, GroupRegisters};
use std::alloc::Global;
use vms_base::{CpuId, Memory};
use vms_group_core::GroupStep;
use vms_history::Table;
use vms_judge::{Role, RoleTable};
use vms_registers::TableRegisters;

impl Table for GroupRegisters {
    type Facts = BoundedFacts;

    type Step = GroupStep;

    ghost State = { GroupState };

    ghost machine = { bounded_groups };

    ghost quiet = { quiet_bounded };
}

impl RoleTable for GroupRegisters {
    fn role(step: &GroupStep) -> Role {
        match *step {
            GroupStep::Split(pass, who) => Role::Begins(pass, who),
            GroupStep::Join(pass) => Role::Ends(pass),
            _ => Role::Works,
        }
    }
}

impl TableRegisters for GroupRegisters {
    ghost cpus_of = { λ facts. facts.groups.tree.cpus };

    ghost Keeps = { KeepsGroups };

    fn open(alloc: Global, facts: &BoundedFacts) -> Result<Option<GroupRegisters>, Memory> {
        if is_base(&facts.groups) {
            Ok(Some(opened(alloc, facts)?))
        } else {
            Ok(None)
        }
    }

    fn cpus(facts: &BoundedFacts) -> u32 {
        facts.groups.tree.cpus
    }

    fn may_own(facts: &BoundedFacts, who: Option<CpuId>) -> bool {
        match who {
            Some(cpu) => cpu.number < facts.groups.tree.cpus,
            None => true,
        }
    }

    fn may_end(&self, facts: &BoundedFacts, slot: u32, pass: u64) -> bool {
        self.carried.is_empty(slot as usize) && self.rises.has_none(slot)
    }

    fn meets(&self, facts: &BoundedFacts, slot: u32, pass: u64, step: &GroupStep) -> bool {
        match *step {
            GroupStep::AddP(group, amount) => self.may_change(facts, slot, group, amount),
            GroupStep::TakeP(cpu, group, v) => self.finds_pending(facts, cpu, group, v),
            GroupStep::TakeU(group, v) => self.finds_up(facts, group, v),
            GroupStep::AddV(group, amount) => self.may_add_value(facts, slot, group, amount),
            GroupStep::AddU(group, amount) => self.may_add_up(facts, slot, group, amount),
            GroupStep::LoadV(group, v) => self.finds_value(facts, group, v),
            GroupStep::Split(_, _) | GroupStep::Join(_) => true,
        }
    }

    fn take(&mut self, facts: &BoundedFacts, slot: u32, pass: u64, step: &GroupStep) {
        match *step {
            GroupStep::AddP(group, amount) => {
                self.change(facts, CpuId { number: slot }, group, amount)
            }
            GroupStep::TakeP(cpu, group, v) => self.take_pending(facts, slot, cpu, group, v),
            GroupStep::TakeU(group, v) => self.take_up(facts, slot, group, v),
            GroupStep::AddV(group, amount) => self.add_value(facts, slot, group, amount),
            GroupStep::AddU(group, amount) => self.add_up(facts, slot, group, amount),
            GroupStep::LoadV(_, _) => {}
            GroupStep::Split(_, _) => {}
            GroupStep::Join(_) => {}
        }
    }

    ghost begins = { λ facts h held next slot q step r begins keeps.
        KeepsGroups-begins facts h held next slot q step r keeps begins };

    ghost ends = { λ facts h held next slot q step r ends keeps.
        KeepsGroups-ends facts h held next slot q step r keeps ends };
}
