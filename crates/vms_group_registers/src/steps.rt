//! What a step of the pass in a slot makes of the registers.

ghost use Rattle.std.specs.Prelude.{◌≡◌, ◌<◌, ◌+◌, ◌≤◌, ◌^◌, ℕ, pos, ◌+ℤ◌, unsigned_abs};
ghost use Rattle.vms_cells.specs.Cells.{at, with_cell};
ghost use Rattle.vms_group_core.specs.Common.{IsGroup, IsTreeCpu, parent_of, pending_at, up_at, value_at, with_pending};
ghost use Rattle.vms_group_core.specs.Common.{with_up, with_value};
ghost use Rattle.vms_group_registers.specs.Bounded.{risen};
ghost use Rattle.vms_group_registers.specs.Keeps.{IsKept};
ghost use Rattle.vms_group_registers.specs.Rises.{IsRise, dropped, rise_at, times_rising, with_risen};

use crate::registers::{pending, set_pending};
use crate::rises::Rise;
use crate::{BoundedFacts, GroupRegisters};
use vms_base::CpuId;

impl GroupRegisters {
    /// Changes a group by an amount on a CPU.
    pub(crate) fn change(&mut self, facts: &BoundedFacts, cpu: CpuId, group: u32, amount: i64)
        requires kept { IsKept facts.now self.old }
        requires cpu { IsTreeCpu facts.now.groups.tree cpu.number }
        requires group { IsGroup facts.now.groups.tree group }
        requires room { unsigned_abs
            (pending_at facts.now.groups.tree self.old.state cpu.number group +ℤ amount) ≤ 2 ^ 62 }
        requires volume { at self.old.spent cpu.number group 0 + unsigned_abs amount < 2 ^ 62 }
        ensures { self.new ≡ record self.old {
          state = with_pending facts.now.groups.tree self.old.state cpu.number group
              (pending_at facts.now.groups.tree self.old.state cpu.number group +ℤ amount);
          spent = with_cell self.old.spent cpu.number group
              (at self.old.spent cpu.number group 0 + unsigned_abs amount);
        } }
    {
        let groups = facts.groups.tree.parents.len();
        let sum = pending(&self.state, groups, cpu, group) + amount;
        set_pending(&mut self.state, groups, cpu, group, sum);
        let spent = self.spent.get(cpu.number as usize, group as usize) + amount.unsigned_abs();
        self.spent.set(cpu.number as usize, group as usize, spent);
    }

    /// Takes what is pending from a CPU, which the pass in the slot then carries beside what it carried.
    pub(crate) fn take_pending(
        &mut self,
        facts: &BoundedFacts,
        slot: u32,
        cpu: CpuId,
        group: u32,
        v: i64,
    )
        requires kept { IsKept facts.now self.old }
        requires slot { slot ≤ facts.now.groups.tree.cpus }
        requires cpu { IsTreeCpu facts.now.groups.tree cpu.number }
        requires group { IsGroup facts.now.groups.tree group }
        requires room { unsigned_abs (v +ℤ at self.old.carried slot group (pos 0)) ≤ 2 ^ 62 }
        ensures { self.new ≡ record self.old {
          state = with_pending facts.now.groups.tree self.old.state cpu.number group (pos 0);
          carried = with_cell self.old.carried slot group (v +ℤ at self.old.carried slot group (pos 0));
        } }
    {
        set_pending(
            &mut self.state,
            facts.groups.tree.parents.len(),
            cpu,
            group,
            0,
        );
        let carried = v + self.carried.get(slot as usize, group as usize);
        self.carried.set(slot as usize, group as usize, carried);
    }

    /// Takes what is pending from a group's children, which the pass in the slot then carries beside what it carried.
    pub(crate) fn take_up(&mut self, facts: &BoundedFacts, slot: u32, group: u32, v: i64)
        requires kept { IsKept facts.now self.old }
        requires slot { slot ≤ facts.now.groups.tree.cpus }
        requires group { IsGroup facts.now.groups.tree group }
        requires room { unsigned_abs (v +ℤ at self.old.carried slot group (pos 0)) ≤ 2 ^ 62 }
        ensures { self.new ≡ record self.old {
          state = with_up self.old.state group (pos 0);
          carried = with_cell self.old.carried slot group (v +ℤ at self.old.carried slot group (pos 0));
        } }
    {
        self.state.up.set(group as usize, 0);
        let carried = v + self.carried.get(slot as usize, group as usize);
        self.carried.set(slot as usize, group as usize, carried);
    }

    /// Adds all that the pass in the slot carries for a group to its value. The amount then rises to the parent.
    pub(crate) fn add_value(&mut self, facts: &BoundedFacts, slot: u32, group: u32, amount: i64)
        requires kept { IsKept facts.now self.old }
        requires slot { slot ≤ facts.now.groups.tree.cpus }
        requires group { IsGroup facts.now.groups.tree group }
        requires sum { unsigned_abs (value_at self.old.state group +ℤ amount) ≤ 2 ^ 62 }
        requires room { risen (parent_of facts.now.groups.tree group) self.old.rises.count ≤ facts.now.room }
        ensures { self.new ≡ record self.old {
          state = with_value self.old.state group (value_at self.old.state group +ℤ amount);
          carried = with_cell self.old.carried slot group (pos 0);
          rises = with_risen slot (parent_of facts.now.groups.tree group) amount self.old.rises;
        } }
    {
        self.rise(facts, slot, group, amount);
        let sum = self.state.value.get(group as usize) + amount;
        self.state.value.set(group as usize, sum);
        self.carried.set(slot as usize, group as usize, 0);
    }

    /// Adds an amount of the pass in a slot that rises to a group to what is pending from the group's children.
    pub(crate) fn add_up(&mut self, facts: &BoundedFacts, slot: u32, group: u32, amount: i64)
        requires kept { IsKept facts.now self.old }
        requires group { IsGroup facts.now.groups.tree group }
        requires sum { unsigned_abs (up_at self.old.state group +ℤ amount) ≤ 2 ^ 62 }
        requires rises { 0 < times_rising self.old.rises slot group amount }
        ensures { (at : ℕ) × (at < self.old.rises.count) × IsRise slot group amount (rise_at self.old.rises at)
            × (self.new ≡ record self.old {
              state = with_up self.old.state group (up_at self.old.state group +ℤ amount);
              rises = dropped at self.old.rises;
            }) }
    {
        let sum = self.state.up.get(group as usize) + amount;
        self.state.up.set(group as usize, sum);
        match self.rises.find(slot, group, amount) {
            Some(at) => self.rises.drop_at(at),
            None => {}
        }
    }

    /// An amount that was added to a group's value rises to the parent, if there is one.
    fn rise(&mut self, facts: &BoundedFacts, slot: u32, group: u32, amount: i64)
        requires kept { IsKept facts.now self.old }
        requires group { IsGroup facts.now.groups.tree group }
        requires room { risen (parent_of facts.now.groups.tree group) self.old.rises.count ≤ facts.now.room }
        ensures { self.new ≡ record self.old {
          rises = with_risen slot (parent_of facts.now.groups.tree group) amount self.old.rises;
        } }
    {
        match facts.groups.tree.parents.get(group as usize) {
            None => {}
            Some(parent) => self.rises.add(Rise {
                slot,
                group: parent,
                amount,
            }),
        }
    }
}
