//! Whether the condition of a step holds for the pass in a slot.

ghost use Rattle.std.specs.Prelude.{◌≡◌, ◌≢◌, ◌↔◌, ◌<◌, ◌+◌, ◌≤◌, IsTrue, pos, unsigned_abs};
ghost use Rattle.vms_history.specs.Common.{most_volume};
ghost use Rattle.vms_cells.specs.Cells.{at};
ghost use Rattle.vms_group_core.specs.Common.{IsGroup, IsTreeCpu, parent_of, pending_at, up_at, value_at};
ghost use Rattle.vms_group_registers.specs.Bounded.{risen};
ghost use Rattle.vms_group_registers.specs.Keeps.{IsKept};
ghost use Rattle.vms_group_registers.specs.Rises.{times_rising};

use crate::registers::pending;
use crate::{BoundedFacts, GroupRegisters};
use vms_base::CpuId;

/// What one CPU may change one group by, in absolute sum.
const MOST_VOLUME: u64 = 1 << 48;

impl GroupRegisters {
    /// Whether the pass in a slot may change a group by an amount.
    pub(crate) fn may_change(
        &self,
        facts: &BoundedFacts,
        slot: u32,
        group: u32,
        amount: i64,
    ) -> bool
        requires { IsKept facts.now self.now }
        ensures { IsTrue result ↔ ((slot < facts.now.groups.tree.cpus) × IsGroup facts.now.groups.tree group
            × (at self.now.spent slot group 0 + unsigned_abs amount ≤ most_volume)) }
    {
        if slot >= facts.groups.tree.cpus || !has_group(facts, group) {
            return false;
        }
        let spent = self.spent.get(slot as usize, group as usize);
        let size = amount.unsigned_abs();
        size <= MOST_VOLUME && spent <= MOST_VOLUME - size
    }

    /// Whether a take of a CPU's pending word finds this amount.
    pub(crate) fn finds_pending(&self, facts: &BoundedFacts, cpu: CpuId, group: u32, v: i64) -> bool
        requires { IsKept facts.now self.now }
        ensures { IsTrue result ↔ (IsTreeCpu facts.now.groups.tree cpu.number × IsGroup facts.now.groups.tree group
            × (pending_at facts.now.groups.tree self.now.state cpu.number group ≡ v)) }
    {
        if cpu.number >= facts.groups.tree.cpus || !has_group(facts, group) {
            return false;
        }
        pending(&self.state, facts.groups.tree.parents.len(), cpu, group) == v
    }

    /// Whether a take of what is pending from a group's children finds this amount.
    pub(crate) fn finds_up(&self, facts: &BoundedFacts, group: u32, v: i64) -> bool
        requires { IsKept facts.now self.now }
        ensures { IsTrue result ↔ (IsGroup facts.now.groups.tree group × (up_at self.now.state group ≡ v)) }
    {
        if !has_group(facts, group) {
            return false;
        }
        self.state.up.get(group as usize) == v
    }

    /// Whether a load of a group's value finds this amount.
    pub(crate) fn finds_value(&self, facts: &BoundedFacts, group: u32, v: i64) -> bool
        requires { IsKept facts.now self.now }
        ensures { IsTrue result ↔ (IsGroup facts.now.groups.tree group × (value_at self.now.state group ≡ v)) }
    {
        if !has_group(facts, group) {
            return false;
        }
        self.state.value.get(group as usize) == v
    }

    /// Whether the pass in a slot carries exactly this amount for a group's value, which isn't 0, and there is room for
    /// it to rise.
    pub(crate) fn may_add_value(
        &self,
        facts: &BoundedFacts,
        slot: u32,
        group: u32,
        amount: i64,
    ) -> bool
        requires kept { IsKept facts.now self.now }
        requires slot { slot ≤ facts.now.groups.tree.cpus }
        ensures { IsTrue result ↔ (IsGroup facts.now.groups.tree group
            × (at self.now.carried slot group (pos 0) ≡ amount) × (amount ≢ pos 0)
            × (risen (parent_of facts.now.groups.tree group) self.now.rises.count ≤ facts.now.room)) }
    {
        if !has_group(facts, group) {
            return false;
        }
        if amount == 0 {
            return false;
        }
        if self.carried.get(slot as usize, group as usize) != amount {
            return false;
        }
        self.has_room(facts, group)
    }

    /// Whether this amount of the pass in a slot, which isn't 0, rises to a group.
    pub(crate) fn may_add_up(
        &self,
        facts: &BoundedFacts,
        slot: u32,
        group: u32,
        amount: i64,
    ) -> bool
        requires { IsKept facts.now self.now }
        ensures { IsTrue result ↔ (IsGroup facts.now.groups.tree group
            × (0 < times_rising self.now.rises slot group amount) × (amount ≢ pos 0)) }
    {
        if !has_group(facts, group) {
            return false;
        }
        if amount == 0 {
            return false;
        }
        self.rises.has(slot, group, amount)
    }

    /// Whether there is room for an amount that is added to a group's value to rise.
    fn has_room(&self, facts: &BoundedFacts, group: u32) -> bool
        requires kept { IsKept facts.now self.now }
        requires group { IsGroup facts.now.groups.tree group }
        ensures { IsTrue result ↔
            (risen (parent_of facts.now.groups.tree group) self.now.rises.count ≤ facts.now.room) }
    {
        match facts.groups.tree.parents.get(group as usize) {
            None => true,
            Some(_) => self.rises.count < facts.room,
        }
    }
}

/// Whether there is a group of this number.
#[inline]
fn has_group(facts: &BoundedFacts, group: u32) -> bool
    ensures { IsTrue result ↔ IsGroup facts.now.groups.tree group }
{
    (group as usize) < facts.groups.tree.parents.len()
}
