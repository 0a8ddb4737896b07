ghost use Rattle.std.specs.Prelude.{IfOk};
ghost use Rattle.vms_group_core.specs.Common.{groups};
ghost use Rattle.vms_judge.specs.Common.{IsVerdict};

use crate::opening::copied;
use crate::{BoundedFacts, GroupRegisters, most_rising};
use std::alloc::Global;
use vms_base::Memory;
use vms_group_core::{Event, GroupFacts};
use vms_judge::Verdict;

/// Judges events on a tree of groups, the oldest first. Beside what goes by the tree, it takes memory for the amounts
/// that rise at once at most.
pub fn judge(alloc: Global, facts: &GroupFacts, events: &[Event]) -> Result<Verdict, Memory>
    ensures { IfOk result (IsVerdict groups facts.now events.now) }
{
    let groups = copied(alloc, facts)?;
    let room = most_rising(&facts.tree, events);
    let bounded = BoundedFacts { groups, room };
    let verdict = vms_registers::judge::<GroupRegisters>(alloc, &bounded, events)?;
    Ok(verdict)
}
