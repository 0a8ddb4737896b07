ghost use Rattle.std.specs.Prelude.{◌≡◌, ◌≢◌, ◌+◌, ◌≤◌, pos, Some, Contains, unsigned_abs};
ghost use Rattle.vms_history.specs.Common.{own, owner_in, most_volume};
ghost use Rattle.vms_group_core.specs.declared.steps.GroupStep.TheVariants.{AddP, TakeP, TakeU, AddV, AddU, LoadV};
ghost use Rattle.vms_group_core.specs.Common.{groups, IsGroup, IsTreeCpu, carried, carried_up, spent, role};
ghost use Rattle.vms_seats.specs.Common.{IsFrom, MadeOne};

use crate::ledgers::SharedGroups;
use crate::tables::GroupTable;
use vms_base::{CpuId, decode, encode};
use vms_group_core::GroupStep;
use vms_seats::{Worker, Works};

// One step each. A call makes its steps by these, and between them others make theirs.
impl GroupTable {
    /// Adds to what is pending for a group from the own CPU.
    #[inline]
    pub(crate) fn add_pending(
        &self,
        worker: &mut Worker<SharedGroups>,
        cpu: CpuId,
        group: u32,
        amount: i64,
    )
        requires table { IsFrom worker.old self.now }
        requires group { IsGroup self.now.facts.tree group }
        requires owns { owner_in role worker.old.seen worker.old.number ≡ Some cpu }
        requires affordable { spent worker.old.seen cpu.number group + unsigned_abs amount ≤ most_volume }
        ensures { MadeOne groups worker.new worker.old (AddP group amount) }
    {
        worker.is_live();
        let plan = GroupStep::AddP(group, amount);
        worker.add_at(
            &self.words,
            self.pending_place(cpu, group),
            encode(amount),
            &plan,
        );
    }

    /// Takes what is pending for a group from a CPU.
    #[inline]
    pub(crate) fn take_pending(
        &self,
        worker: &mut Worker<SharedGroups>,
        cpu: CpuId,
        group: u32,
    ) -> i64
        requires table { IsFrom worker.old self.now }
        requires cpu { IsTreeCpu self.now.facts.tree cpu.number }
        requires group { IsGroup self.now.facts.tree group }
        ensures { MadeOne groups worker.new worker.old (TakeP cpu group result) }
    {
        let plan = GroupStep::TakeP(cpu, group, 0);
        decode(worker.swap_at(&self.words, self.pending_place(cpu, group), 0, &plan))
    }

    /// Takes what is pending for a group from its children.
    #[inline]
    pub(crate) fn take_up(&self, worker: &mut Worker<SharedGroups>, group: u32) -> i64
        requires table { IsFrom worker.old self.now }
        requires group { IsGroup self.now.facts.tree group }
        ensures { MadeOne groups worker.new worker.old (TakeU group result) }
    {
        let plan = GroupStep::TakeU(group, 0);
        decode(worker.swap_at(&self.words, self.up_place(group), 0, &plan))
    }

    /// Adds what is carried for a group's value to it.
    #[inline]
    pub(crate) fn add_value(&self, worker: &mut Worker<SharedGroups>, group: u32, amount: i64)
        requires table { IsFrom worker.old self.now }
        requires group { IsGroup self.now.facts.tree group }
        requires carries { carried group (own worker.old.seen worker.old.number) ≡ amount }
        requires some { amount ≢ pos 0 }
        ensures { MadeOne groups worker.new worker.old (AddV group amount) }
    {
        let plan = GroupStep::AddV(group, amount);
        worker.add_at(&self.words, self.value_place(group), encode(amount), &plan);
    }

    /// Adds an amount that is carried from one child of a group to what is pending for the group from its children.
    #[inline]
    pub(crate) fn add_up(&self, worker: &mut Worker<SharedGroups>, group: u32, amount: i64)
        requires table { IsFrom worker.old self.now }
        requires group { IsGroup self.now.facts.tree group }
        requires carries { Contains (carried_up self.now.facts.tree group (own worker.old.seen worker.old.number))
            amount }
        requires some { amount ≢ pos 0 }
        ensures { MadeOne groups worker.new worker.old (AddU group amount) }
    {
        let plan = GroupStep::AddU(group, amount);
        worker.add_at(&self.words, self.up_place(group), encode(amount), &plan);
    }

    /// Loads a group's value.
    #[inline]
    pub(crate) fn load_value(&self, worker: &mut Worker<SharedGroups>, group: u32) -> i64
        requires table { IsFrom worker.old self.now }
        requires group { IsGroup self.now.facts.tree group }
        ensures { MadeOne groups worker.new worker.old (LoadV group result) }
    {
        let plan = GroupStep::LoadV(group, 0);
        decode(worker.load_at(&self.words, self.value_place(group), &plan))
    }
}
