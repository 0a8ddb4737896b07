ghost use Rattle.vms_core.specs.declared.states.State.{State};
ghost use Rattle.vms_core.specs.Common.{pages, quiet_pages};
ghost use Rattle.vms_page_registers.specs.Keeps.{KeepsPages};
ghost use Rattle.vms_page_registers.specs.PassesKept.{KeepsPages-begins, KeepsPages-ends};

use crate::PageRegisters;
use crate::bases::{is_base, may_own};
use std::alloc::Global;
use vms_base::{CpuId, Memory};
use vms_core::{Facts, Step};
use vms_history::Table;
use vms_judge::{Role, RoleTable};
use vms_registers::TableRegisters;

impl Table for PageRegisters {
    type Facts = Facts;

    type Step = Step;

    ghost State = { State };

    ghost machine = { pages };

    ghost quiet = { quiet_pages };
}

impl RoleTable for PageRegisters {
    fn role(step: &Step) -> Role {
        match *step {
            Step::Split(pass, who) => Role::Begins(pass, who),
            Step::Join(pass) => Role::Ends(pass),
            _ => Role::Works,
        }
    }
}

impl TableRegisters for PageRegisters {
    ghost cpus_of = { λ facts. facts.layout.cpus };

    ghost Keeps = { KeepsPages };

    fn open(alloc: Global, facts: &Facts) -> Result<Option<PageRegisters>, Memory> {
        if is_base(facts) {
            Ok(Some(PageRegisters::opened(alloc, facts)?))
        } else {
            Ok(None)
        }
    }

    fn cpus(facts: &Facts) -> u32 {
        facts.layout.cpus()
    }

    fn may_own(facts: &Facts, who: Option<CpuId>) -> bool {
        may_own(facts, who)
    }

    fn may_end(&self, facts: &Facts, slot: u32, pass: u64) -> bool {
        self.passes.carries_nothing(slot)
    }

    fn meets(&self, facts: &Facts, slot: u32, pass: u64, step: &Step) -> bool {
        match *step {
            Step::LoadT(place, t, number) => {
                self.words.loads_threshold(facts, slot, place, t, number)
            }
            Step::LoadD(cpu, group, list) => self.words.finds_group(facts, cpu, group, list),
            Step::Put(counter, list, t, delta, _) => {
                self.puts(facts, slot, pass, counter, list, t, delta)
            }
            Step::Miss(group, list) => self.misses(facts, slot, pass, group, list),
            Step::AddG(counter, amount) => {
                self.passes.adds_to_place(facts, slot, counter, amount)
            }
            Step::AddS(item, amount) => self.passes.adds_to_system(facts, slot, item, amount),
            Step::Take(cpu, group, list) => self.words.finds_group(facts, cpu, group, list),
            Step::LoadG(counter, v) => self.words.finds_value(facts, counter, v),
            Step::LoadS(item, v) => self.words.finds_system(facts, item, v),
            Step::LoadM(zone, mark, number) => self.words.loads_mark(facts, zone, mark, number),
            Step::LoadO(cpu, state) => self.words.finds_cpu(facts, cpu, state),
            Step::SetT(cpu, place, t) => self.sets_threshold(facts, slot, cpu, place, t),
            Step::SetM(zone, mark) => self.sets_mark(facts, slot, zone, mark),
            Step::SetO(cpu) => self.words.sets_absent(facts, slot, cpu),
            Step::SetA(zone, number) => {
                self.passes.acknowledges(facts, slot, pass, zone, number)
            }
            Step::LoadA(cpu, zone, told) => {
                self.words.loads_acknowledged(facts, slot, cpu, zone, told)
            }
            Step::Split(_, _) | Step::Join(_) => true,
        }
    }

    fn take(&mut self, facts: &Facts, slot: u32, pass: u64, step: &Step) {
        let newest = self.newest(facts, slot, step);
        self.peaks.take(facts, slot, step, newest);
        self.words.take(facts, slot, step);
        self.passes.take(facts, slot, pass, step);
    }

    ghost begins = { λ facts h held next slot q step r begins keeps.
        KeepsPages-begins facts h held next slot q step r keeps begins };

    ghost ends = { λ facts h held next slot q step r ends keeps.
        KeepsPages-ends facts h held next slot q step r keeps ends };
}
