ghost use Rattle.std.specs.Prelude.{◌≡◌, IfOk};
ghost use Rattle.vms_group_core.specs.Common.{IsTree};
ghost use Rattle.vms_group_phase.specs.Phases.{IsGroupPhase, group_values};
ghost use Rattle.vms_group_phase.specs.Worlds.{FitGroups, IsGroupWorld, group_facts, left_group_world};

use crate::items::{GroupItem, NumberedValue};
use crate::lanes::run_lanes;
use crate::values::values_in_order;
use crate::volumes::grow_volumes;
use crate::worlds::GroupWorld;
use std::alloc::Global;
use std::thread::Threads;
use vms_base::Memory;
use vms_group::{GroupHistory, GroupTable};
use vms_group_core::{Tree, answers_are_read};
use vms_jobs::Gate;

/// A phase that was run.
#[derive(Drop)]
pub struct GroupPhaseDone {
    /// The world that it leaves.
    pub world: GroupWorld,
    /// What its lines answered with a value, in the order of the lines.
    pub values: Vec<NumberedValue>,
    pub history: GroupHistory,
}

/// Runs the lines of a phase from a world, with a thread for each lane that has lines, and returns once all have ended.
/// Each lane calls the gate before each of its lines, with the number of its CPU and that of the line. The history is
/// one phase of these lines and begins with the world: the world that is returned is the one that it leaves, and the
/// values are those that it tells.
pub fn run_group_phase<R: Threads + Sync, G: Gate>(
    rt: &R,
    alloc: Global,
    gate: &G,
    tree: &Tree,
    world: GroupWorld,
    items: &[GroupItem],
) -> Result<GroupPhaseDone, Memory>
    requires tree { IsTree tree.now }
    requires world { IsGroupWorld tree.now world }
    requires fits { FitGroups tree.now world items.now }
    ensures facts { IfOk result (λ done. done.history.facts ≡ group_facts tree.now world) }
    ensures phase { IfOk result (λ done. IsGroupPhase tree.now world items.now done.history.events) }
    ensures world { IfOk result (λ done. done.world ≡ left_group_world tree.now world items.now done.history.events) }
    ensures values { IfOk result (λ done. done.values.items
        ≡ group_values tree.now world items.now done.history.events) }
{
    answers_are_read();
    let GroupWorld {
        mut words,
        mut volumes,
    } = world;
    let (table, mut main) = GroupTable::make(alloc, tree, &words)?;
    let lanes = run_lanes(rt, alloc, gate, &table, &mut main, &volumes, items)?;
    let values = values_in_order(alloc, lanes.as_slice(), items)?;
    let history = table.close(main, &mut words);
    history.is_complete();
    grow_volumes(&mut volumes, tree, items);
    Ok(GroupPhaseDone {
        world: GroupWorld { words, volumes },
        values,
        history,
    })
}
