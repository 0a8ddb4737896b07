ghost use Rattle.std.specs.Prelude.{◌≡◌, IfOk};
ghost use Rattle.vms_group_core.specs.Common.{IsTree};
ghost use Rattle.vms_group_phase.specs.Worlds.{first_group_world};

use std::alloc::Global;
use vms_base::{Memory, Row};
use vms_group_core::{GroupState, Tree};

/// What stands between two phases of a group trace.
#[derive(Debug, Drop)]
pub struct GroupWorld {
    pub words: GroupState,
    /// What each CPU has changed each group by so far, in absolute sum, by CPU and then group.
    pub volumes: Row<u64>,
}

impl GroupWorld {
    /// The world before the first phase.
    pub fn first(alloc: Global, tree: &Tree) -> Result<GroupWorld, Memory>
        requires { IsTree tree.now }
        ensures { IfOk result (λ world. world ≡ first_group_world tree.now) }
    {
        Ok(GroupWorld {
            words: GroupState::zeros(alloc, tree)?,
            volumes: Row::filled(alloc, tree.cpus as usize * tree.parents.len(), 0)?,
        })
    }
}
