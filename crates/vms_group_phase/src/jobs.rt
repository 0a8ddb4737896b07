ghost use Rattle.std.specs.Prelude.{◌≡◌, ℕ, ◌+◌, ◌++◌, ◌*◌, ◌<◌, ◌≤◌, suc, [], ◌∷◌, All, IfOk, OnOk, length};
ghost use Rattle.std.specs.Prelude.{slice_index};
ghost use Rattle.vms_history.specs.Common.{cell};
ghost use Rattle.vms_group_core.specs.Common.{IsGroup, IsTreeCpu, group_count};
ghost use Rattle.vms_group_phase.specs.LaneRuns.{HasRoom, HasRunJob, MayRunJob, RunsLines};
ghost use Rattle.vms_group_phase.specs.Lanes.{HaveBegunLanes};
ghost use Rattle.vms_group_phase.specs.Lines.{AreCounted, group_of, lane_lines, spent_by_lines};
ghost use Rattle.vms_group_phase.specs.Phases.{values_among};
ghost use Rattle.vms_group_phase.specs.Worlds.{FitVolumes};
ghost use Rattle.vms_seats.specs.Common.{IsFrom};

use crate::calls::make_call;
use crate::counted_items::{CountedItems, count_items};
use crate::items::GroupItem;
use std::alloc::Global;
use vms_base::{CpuId, Memory, Row, Volume};
use vms_group::{GroupMain, GroupPass, GroupTable};
use vms_group_core::GroupAnswer;
use vms_jobs::Gate;

/// A lane that is to run: its pass, and the lines of the phase, among which its own stand.
#[derive(Drop)]
pub(crate) struct LaneJob<'a> {
    pub cpu: CpuId,
    pub pass: GroupPass,
    pub items: &'a [GroupItem],
    /// How many of the lines are its own.
    pub count: usize,
}

/// A lane that has run: its pass, and the values that its lines found which ask for one.
#[derive(Drop)]
pub(crate) struct LaneDone {
    pub cpu: CpuId,
    pub pass: GroupPass,
    pub values: Vec<i64>,
}

/// Makes the lines of a lane, whatever the other lanes make meanwhile. Room for a value of each is reserved first.
pub(crate) fn run_job<G: Gate>(
    alloc: Global,
    gate: &G,
    table: &GroupTable,
    job: LaneJob<'_>,
) -> Result<LaneDone, Memory>
    requires { MayRunJob table.now job }
    ensures { IfOk result (λ done. HasRunJob table.now job.entry done) }
{
    let LaneJob {
        cpu,
        mut pass,
        items,
        count,
    } = job;
    let mut values = Vec::with_capacity(alloc, count)?;
    make_lines(gate, table, &mut pass, cpu, items, &mut values)?;
    Ok(LaneDone { cpu, pass, values })
}

/// Makes the lines of a CPU's lane one after another, and passes over those of others. Calls the gate before each, and
/// appends the values that they find.
fn make_lines<G: Gate>(
    gate: &G,
    table: &GroupTable,
    pass: &mut GroupPass,
    cpu: CpuId,
    items: &[GroupItem],
    values: &mut Vec<i64>,
) -> Result<(), Memory>
    requires table { IsFrom pass.old.pass table.now }
    requires named { All (λ item. IsGroup table.now.facts.tree (group_of item.call)) items.now }
    requires room { HasRoom table.now.facts.tree (spent_by_lines (lane_lines cpu.number items.now)) pass.old.volume }
    requires none { values.old.items ≡ [] }
    ensures { OnOk result (RunsLines table.now.facts (lane_lines cpu.number items.now) values.new.items pass.new
        pass.old) }
{
    pass.cpu();
    for item in items {
        if item.cpu.number == cpu.number {
            gate.at(cpu.number, item.number);
            let answer = make_call(table, pass, item.call);
            keep_value(values, answer)?;
        }
    }
    Ok(())
}

/// Appends the value in an answer, if it has one.
#[inline]
fn keep_value(values: &mut Vec<i64>, answer: GroupAnswer) -> Result<(), Memory>
    ensures { OnOk result (values.new.items ≡ values.old.items ++ values_among (answer ∷ [])) }
{
    if let GroupAnswer::Value(value) = answer {
        values.push(value)?;
    }
    Ok(())
}

/// Begins the passes of the lanes that have lines, in the order of their CPUs, from a table in which nothing was made
/// yet, with the volumes that the CPUs have.
pub(crate) fn begin_lanes<'a>(
    alloc: Global,
    table: &GroupTable,
    main: &mut GroupMain,
    volumes: &Row<u64>,
    items: &'a [GroupItem],
) -> Result<Vec<LaneJob<'a>>, Memory>
    requires of { IsFrom main.old table.now }
    requires nothing { main.old.seen ≡ [] }
    requires one_each { length volumes.now ≡ table.now.facts.tree.cpus * group_count table.now.facts.tree }
    requires fit { FitVolumes table.now.facts.tree volumes.now items.now }
    ensures { IfOk result (λ jobs. HaveBegunLanes table.now items.now table.now.facts.tree.cpus main.new jobs.items) }
{
    let counts = count_items(alloc, table.tree(), items)?;
    let counted = CountedItems { items, counts };
    let mut jobs = Vec::new(alloc);
    for number in 0..table.tree().cpus {
        begin_next(
            alloc,
            table,
            main,
            volumes,
            &counted,
            CpuId { number },
            &mut jobs,
        )?;
    }
    Ok(jobs)
}

/// Begins the pass of a CPU's lane, if it has lines.
fn begin_next<'a>(
    alloc: Global,
    table: &GroupTable,
    main: &mut GroupMain,
    volumes: &Row<u64>,
    counted: &CountedItems<'a>,
    cpu: CpuId,
    jobs: &mut Vec<LaneJob<'a>>,
) -> Result<(), Memory>
    requires one_each { length volumes.now ≡ table.now.facts.tree.cpus * group_count table.now.facts.tree }
    requires fit { FitVolumes table.now.facts.tree volumes.now counted.now.items.now }
    requires counts { AreCounted table.now.facts.tree counted.now.counts counted.now.items.now }
    requires cpu { IsTreeCpu table.now.facts.tree cpu.number }
    requires below { HaveBegunLanes table.now counted.now.items.now cpu.number main.old jobs.old.items }
    ensures { OnOk result (HaveBegunLanes table.now counted.now.items.now (suc cpu.number) main.new jobs.new.items) }
{
    main.is_main();
    let count = counted.counts.get(cpu.number as usize);
    if count > 0 {
        let volume = volume_of(alloc, volumes, table.tree().parents.len(), cpu)?;
        let pass = table.cpu_pass(main, cpu, volume);
        jobs.push(LaneJob {
            cpu,
            pass,
            items: counted.items,
            count,
        })?;
    }
    Ok(())
}

/// The volumes of a CPU by group, among those of all CPUs.
fn volume_of(alloc: Global, volumes: &Row<u64>, groups: usize, cpu: CpuId) -> Result<Volume, Memory>
    requires { cpu.number * groups + groups ≤ length volumes.now }
    ensures one_each { IfOk result (λ volume. length volume ≡ groups) }
    ensures each { IfOk result (λ volume. (g : ℕ) → g < groups →
        slice_index volume g ≡ slice_index volumes.now (cell groups cpu.number g)) }
{
    volumes.len();
    let start = cpu.number as usize * groups;
    Row::from_slice(alloc, &volumes.as_slice()[start..start + groups])
}
