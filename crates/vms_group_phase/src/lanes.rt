ghost use Rattle.std.specs.Prelude.{◌≡◌, ℕ, ◌*◌, ◌<◌, [], IfOk, length, nat_eq, if◌then◌else◌};
ghost use Rattle.vms_group_core.specs.declared.steps.GroupStep.TheVariants.{Join};
ghost use Rattle.vms_group_core.specs.Common.{group_count, groups};
ghost use Rattle.vms_group_phase.specs.Lanes.{HaveRunLanes, values_of};
ghost use Rattle.vms_group_phase.specs.Worlds.{FitVolumes};
ghost use Rattle.vms_seats.specs.Common.{HasEnded, IsFrom};

use crate::items::GroupItem;
use crate::jobs::{LaneDone, begin_lanes};
use crate::threads::run_jobs;
use std::alloc::Global;
use std::thread::Threads;
use vms_base::{Memory, Row};
use vms_group::{GroupMain, GroupTable};
use vms_jobs::Gate;

/// The values that the lines of one lane found which ask for one, in their order. A list of them has one for each CPU.
#[derive(Drop)]
pub(crate) struct LaneValues {
    pub items: Vec<i64>,
}

/// Makes the lines of a phase, each lane on a thread of its own, from a table in which nothing was made yet. Returns
/// what the lanes found, by CPU, once all passes have ended.
pub(crate) fn run_lanes<R: Threads + Sync, G: Gate>(
    rt: &R,
    alloc: Global,
    gate: &G,
    table: &GroupTable,
    main: &mut GroupMain,
    volumes: &Row<u64>,
    items: &[GroupItem],
) -> Result<Vec<LaneValues>, Memory>
    requires of { IsFrom main.old table.now }
    requires nothing { main.old.seen ≡ [] }
    requires one_each { length volumes.now ≡ table.now.facts.tree.cpus * group_count table.now.facts.tree }
    requires fit { FitVolumes table.now.facts.tree volumes.now items.now }
    ensures { IfOk result (λ values. HaveRunLanes table.now items.now main.new values.items) }
{
    let mut values = no_values(alloc, table.tree().cpus as usize)?;
    let jobs = begin_lanes(alloc, table, main, volumes, items)?;
    let results = run_jobs(rt, alloc, gate, table, jobs)?;
    for result in results {
        let done = result?;
        join_lane(table, main, &mut values, done);
    }
    Ok(values)
}

/// Ends the pass of a lane that has run, and puts its values into its place.
fn join_lane(table: &GroupTable, main: &mut GroupMain, values: &mut Vec<LaneValues>, done: LaneDone)
    requires of { IsFrom main.old table.now × IsFrom done.pass.pass table.now }
    requires place { done.cpu.number < length values.old.items }
    ensures ended { HasEnded groups Join main.new main.old done.pass.pass }
    ensures one_each { length values.new.items ≡ length values.old.items }
    ensures values { (c : ℕ) → values_of values.new.items c
        ≡ (if nat_eq done.cpu.number c then done.values.items else values_of values.old.items c) }
{
    let LaneDone {
        cpu,
        pass,
        values: own,
    } = done;
    table.join_cpu(main, pass);
    values[cpu.number as usize] = LaneValues { items: own };
}

/// So many lanes that found nothing.
fn no_values(alloc: Global, count: usize) -> Result<Vec<LaneValues>, Memory>
    ensures { IfOk result (λ values. length values.items ≡ count) }
{
    let mut values = Vec::with_capacity(alloc, count)?;
    for _ in 0..count {
        values.push(LaneValues {
            items: Vec::new(alloc),
        })?;
    }
    Ok(values)
}
