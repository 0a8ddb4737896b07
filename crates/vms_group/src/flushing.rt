ghost use Rattle.std.specs.Prelude.{◌≡◌, ◌≢◌, ◌<◌, ◌||◌, ℕ, pos, false, Bool, Some, slice_index_or};
ghost use Rattle.vms_history.specs.Common.{own};
ghost use Rattle.vms_group_core.specs.Common.{groups, IsGroup, IsTree, carried, raises, parent_of, in_subtree};
ghost use Rattle.vms_group_core.specs.Common.{is_flagged as has_flag, CarriesNothing};
ghost use Rattle.vms_group.specs.Flushing.{TookFrom, FlushedGroup, FlushedWhere, Flushed};
ghost use Rattle.vms_seats.specs.Common.{IsFrom, Made};

use crate::ledgers::SharedGroups;
use crate::passes::GroupPass;
use crate::tables::GroupTable;
use vms_base::CpuId;
use vms_group_core::Tree;
use vms_seats::Worker;

/// How many groups a tree may have.
const MOST_GROUPS: usize = 64;

impl GroupTable {
    /// Moves what is pending in the subtree of a group up to the group's value (`cgroup_rstat_flush` of
    /// kernel/cgroup/rstat.c): group by group, children before their parents.
    pub fn flush(&self, pass: &mut GroupPass, group: u32)
        requires table { IsFrom pass.old.pass self.now }
        requires group { IsGroup self.now.facts.tree group }
        ensures made { Flushed self.now.facts.tree group pass.new.pass pass.old.pass }
        ensures volume { pass.new.volume ≡ pass.old.volume }
    {
        self.flush_by(&mut pass.worker, group);
    }

    fn flush_by(&self, worker: &mut Worker<SharedGroups>, group: u32)
        requires table { IsFrom worker.old self.now }
        requires group { IsGroup self.now.facts.tree group }
        requires idle { CarriesNothing self.now.facts.tree (own worker.old.seen worker.old.number) }
        ensures { Flushed self.now.facts.tree group worker.new worker.old }
    {
        worker.is_live();
        let flags = subtree_flags(&self.facts.tree, group);
        let count = self.facts.tree.parents.len();
        for done in 0..count {
            let number = count - 1 - done;
            let flag = flags[number];
            self.flush_where(worker, flag, number as u32);
        }
    }

    /// Flushes one group if a flag says so.
    fn flush_where(&self, worker: &mut Worker<SharedGroups>, flag: bool, group: u32)
        requires table { IsFrom worker.old self.now }
        requires group { IsGroup self.now.facts.tree group }
        requires nothing { carried group (own worker.old.seen worker.old.number) ≡ pos 0 }
        ensures { FlushedWhere flag self.now.facts.tree group worker.new worker.old }
    {
        worker.is_live();
        if flag {
            self.flush_group(worker, group);
        }
    }

    /// Takes all that is pending for a group, and moves the sum up, unless it is 0.
    fn flush_group(&self, worker: &mut Worker<SharedGroups>, group: u32)
        requires table { IsFrom worker.old self.now }
        requires group { IsGroup self.now.facts.tree group }
        requires nothing { carried group (own worker.old.seen worker.old.number) ≡ pos 0 }
        ensures { FlushedGroup self.now.facts.tree group worker.new worker.old }
    {
        let taken = self.take_all(worker, group);
        let up = self.take_up(worker, group);
        let sum = taken + up;
        if sum != 0 {
            self.raise(worker, group, sum);
        }
    }

    /// Takes what is pending for a group from each CPU.
    fn take_all(&self, worker: &mut Worker<SharedGroups>, group: u32) -> i64
        requires table { IsFrom worker.old self.now }
        requires group { IsGroup self.now.facts.tree group }
        requires nothing { carried group (own worker.old.seen worker.old.number) ≡ pos 0 }
        ensures { TookFrom group worker.new worker.old self.now.facts.tree.cpus result }
    {
        worker.is_live();
        let mut sum = 0;
        for number in 0..self.facts.tree.cpus {
            let found = self.take_pending(worker, CpuId { number }, group);
            sum += found;
        }
        sum
    }

    /// Adds an amount that is carried for a group to its value, and to what is pending for its parent if it has one.
    fn raise(&self, worker: &mut Worker<SharedGroups>, group: u32, amount: i64)
        requires table { IsFrom worker.old self.now }
        requires group { IsGroup self.now.facts.tree group }
        requires carries { carried group (own worker.old.seen worker.old.number) ≡ amount }
        requires some { amount ≢ pos 0 }
        ensures { Made groups worker.new worker.old (raises (parent_of self.now.facts.tree group) group amount) }
    {
        let parent = self.facts.tree.parents.get(group as usize);
        self.add_value(worker, group, amount);
        match parent {
            None => {}
            Some(parent) => self.add_up(worker, parent, amount),
        }
    }
}

/// Whether each group is in the subtree of a group.
fn subtree_flags(tree: &Tree, group: u32) -> [bool; MOST_GROUPS]
    requires { IsTree tree.now }
    ensures { (x : ℕ) → IsGroup tree.now x → slice_index_or result x false ≡ in_subtree tree.now group x }
{
    let mut flags = [false; MOST_GROUPS];
    for number in 0..tree.parents.len() {
        let above = is_flagged(&flags, tree.parents.get(number));
        flags[number] = either(number == group as usize, above);
    }
    flags
}

/// Whether a group's parent has a flag.
fn is_flagged(flags: &[bool; MOST_GROUPS], parent: Option<u32>) -> bool
    requires { (y : ℕ) → parent ≡ Some y → y < 64 }
    ensures { result ≡ has_flag flags.now parent }
{
    match parent {
        None => false,
        Some(number) => flags[number as usize],
    }
}

#[inline]
fn either(first: bool, second: bool) -> bool
    ensures { result ≡ (first || second) }
{
    first || second
}
