//! The registers of a history without events.

ghost use Rattle.std.specs.Prelude.{◌≡◌, ℕ, IfOk, []};
ghost use Rattle.vms_group_core.specs.Common.{IsBase};
ghost use Rattle.vms_group_registers.specs.Keeps.{KeepsGroups};

use crate::rises::Rises;
use crate::{BoundedFacts, GroupRegisters};
use std::alloc::Global;
use vms_base::{Memory, Row};
use vms_cells::{Grid, Tally};
use vms_group_core::{GroupFacts, GroupState, Tree};

pub(crate) fn opened(alloc: Global, facts: &BoundedFacts) -> Result<GroupRegisters, Memory>
    requires { IsBase facts.now.groups }
    ensures { IfOk result (λ r. (held : ℕ → ℕ) → KeepsGroups facts.now [] held r) }
{
    let cpus = facts.groups.tree.cpus as usize;
    let groups = facts.groups.tree.parents.len();
    let state = copied_state(alloc, &facts.groups.base)?;
    let spent = Grid::filled(alloc, cpus, groups, 0)?;
    let carried = Tally::zeros(alloc, cpus + 1, groups)?;
    let rises = Rises::none(alloc, facts.room)?;
    Ok(GroupRegisters {
        state,
        spent,
        carried,
        rises,
    })
}

/// The same facts in memory of their own.
pub(crate) fn copied(alloc: Global, facts: &GroupFacts) -> Result<GroupFacts, Memory>
    ensures { IfOk result (λ copy. copy ≡ facts.now) }
{
    let parents = Row::from_slice(alloc, facts.tree.parents.as_slice())?;
    let base = copied_state(alloc, &facts.base)?;
    let tree = Tree {
        parents,
        cpus: facts.tree.cpus,
    };
    Ok(GroupFacts { tree, base })
}

fn copied_state(alloc: Global, state: &GroupState) -> Result<GroupState, Memory>
    ensures { IfOk result (λ copy. copy ≡ state.now) }
{
    let value = Row::from_slice(alloc, state.value.as_slice())?;
    let up = Row::from_slice(alloc, state.up.as_slice())?;
    let pending = Row::from_slice(alloc, state.pending.as_slice())?;
    Ok(GroupState { value, up, pending })
}
