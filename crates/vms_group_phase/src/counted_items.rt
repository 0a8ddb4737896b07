ghost use Rattle.std.specs.Prelude.{All, IfOk};
ghost use Rattle.vms_group_phase.specs.Lines.{AreCounted, IsLineOf};

use crate::items::GroupItem;
use std::alloc::Global;
use vms_base::{Memory, Row};
use vms_group_core::Tree;

/// The lines of a phase, with how many of them each CPU's lane has. They stay where they stand: a lane passes over the
/// lines of others.
#[derive(Drop)]
pub(crate) struct CountedItems<'a> {
    pub items: &'a [GroupItem],
    pub counts: Row<usize>,
}

/// How many of these lines each CPU's lane has, counted in one go through the lines.
pub(crate) fn count_items(
    alloc: Global,
    tree: &Tree,
    items: &[GroupItem],
) -> Result<Row<usize>, Memory>
    requires { All (IsLineOf tree.now) items.now }
    ensures { IfOk result (λ counts. AreCounted tree.now counts items.now) }
{
    let mut counts = Row::filled(alloc, tree.cpus as usize, 0)?;
    for item in items {
        let lane = item.cpu.number as usize;
        let count = counts.get(lane);
        counts.set(lane, count + 1);
    }
    Ok(counts)
}
