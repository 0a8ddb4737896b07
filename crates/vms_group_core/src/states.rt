ghost use Rattle.std.specs.Prelude.{◌≡◌, IfOk};
ghost use Rattle.vms_group_core.specs.Trees.{IsTree};
ghost use Rattle.vms_group_core.specs.Bases.{zeros_of};

use crate::Tree;
use std::alloc::Global;
use vms_base::{Memory, Row};

/// The words of a tree of groups.
#[derive(Debug, Drop)]
pub struct GroupState {
    /// What was flushed to each group, its own changes and those below it (`memcg->vmstats->state` of
    /// mm/memcontrol.c).
    pub value: Row<i64>,
    /// What was flushed to the children of each group, and not to the group yet (`state_pending` there).
    pub up: Row<i64>,
    /// What each CPU changed in each group and nobody flushed yet, by CPU and then group (`memcg->vmstats_percpu`).
    pub pending: Row<i64>,
}

impl GroupState {
    /// The words of a tree in which nothing was changed.
    pub fn zeros(alloc: Global, tree: &Tree) -> Result<GroupState, Memory>
        requires { IsTree tree.now }
        ensures { IfOk result (λ state. state ≡ zeros_of tree.now) }
    {
        let groups = tree.parents.len();
        Ok(GroupState {
            value: Row::filled(alloc, groups, 0)?,
            up: Row::filled(alloc, groups, 0)?,
            pending: Row::filled(alloc, tree.cpus as usize * groups, 0)?,
        })
    }
}
