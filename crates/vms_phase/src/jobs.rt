ghost use Rattle.std.specs.Prelude.{◌≡◌, ◌+◌, ◌<◌, suc, IfOk, OnOk};
ghost use Rattle.vms_world.specs.Common.{IsHeader, lanes_below, lanes_of};
ghost use Rattle.vms_phase.specs.Jobs.{HasRunJob, HaveBegunOf, MayRunJob, MayStart};
ghost use Rattle.vms_tables.specs.Common.{AreFrom, HaveSeenNothing, mains_of, AreMadeFrom, AreTables};

use crate::control_passes::begin_control;
use crate::passes::begin_cpu;
use crate::plans::Plan;
use std::alloc::Global;
use std::sync::Wait;
use vms_answers::NumberedAnswer;
use vms_base::{CpuId, Header, Memory};
use vms_calc::{Rule, Rules};
use vms_jobs::Gate;
use vms_lane::{Host, LaneLines, LanePasses, run_lane};
use vms_tables::{MainPasses, Tables};
use vms_text::Lane;

/// A lane that is to run: its passes and its lines.
#[derive(Drop)]
pub struct LaneJob<'a> {
    pub lane: Lane,
    pub passes: LanePasses,
    pub lines: LaneLines<'a>,
}

/// A lane that has run: its passes, and what its lines answer.
#[derive(Drop)]
pub struct LaneDone {
    pub lane: Lane,
    pub passes: LanePasses,
    pub answers: Vec<NumberedAnswer>,
}

/// Makes the lines of a lane, whatever the other lanes make meanwhile. It may wait for the locks of percpu counters.
pub fn run_job<R: Wait, G: Gate, N: Rule, P: Rule>(
    host: &Host<'_, R, G>,
    tables: &Tables,
    header: &Header,
    rules: &Rules<N, P>,
    job: LaneJob<'_>,
) -> Result<LaneDone, Memory>
    requires header { IsHeader header.now }
    requires tables { AreTables header.now tables.now }
    requires job { MayRunJob header.now tables.now job }
    ensures { IfOk result (λ done. HasRunJob header.now (P.answers rules.now.pressure)
        (N.answers rules.now.normal) tables.now job.entry done) }
{
    let LaneJob {
        lane,
        mut passes,
        lines,
    } = job;
    let answers = run_lane(host, tables, header, rules, &mut passes, lane, &lines)?;
    Ok(LaneDone {
        lane,
        passes,
        answers,
    })
}

/// Begins the passes of the lanes that have lines, from tables in which nothing was made yet: of the CPUs' lanes in
/// ascending order, and then of the control lane. Returns the lanes with their passes and lines.
pub fn begin_lanes<'a>(
    alloc: Global,
    plan: &Plan<'a>,
    mains: &mut MainPasses,
) -> Result<Vec<LaneJob<'a>>, Memory>
    requires tables { AreTables plan.now.header.now plan.now.tables.now }
    requires made { AreMadeFrom plan.now.world.now plan.now.tables.now }
    requires of { AreFrom plan.now.tables.now (mains_of mains.old) }
    requires nothing { HaveSeenNothing (mains_of mains.old) }
    requires start { MayStart plan.now }
    ensures { IfOk result (λ jobs. HaveBegunOf plan.now (lanes_of plan.now.header.now.layout plan.now.lines.now)
        (mains_of mains.new) jobs.items) }
{
    let mut jobs = begin_cpu_lanes(alloc, plan, mains)?;
    begin_control_lane(plan, mains, &mut jobs)?;
    Ok(jobs)
}

/// Begins the passes of the CPUs' lanes that have lines, in ascending order, from tables in which nothing was made yet.
/// Returns the lanes with their passes and lines.
pub fn begin_cpu_lanes<'a>(
    alloc: Global,
    plan: &Plan<'a>,
    mains: &mut MainPasses,
) -> Result<Vec<LaneJob<'a>>, Memory>
    requires tables { AreTables plan.now.header.now plan.now.tables.now }
    requires made { AreMadeFrom plan.now.world.now plan.now.tables.now }
    requires of { AreFrom plan.now.tables.now (mains_of mains.old) }
    requires nothing { HaveSeenNothing (mains_of mains.old) }
    requires start { MayStart plan.now }
    ensures { IfOk result (λ jobs. HaveBegunOf plan.now (lanes_below plan.now.header.now.layout.cpus plan.now.lines.now)
        (mains_of mains.new) jobs.items) }
{
    let mut jobs = Vec::new(alloc);
    for number in 0..plan.header.layout.cpus() {
        let cpu = CpuId { number };
        begin_next(alloc, plan, mains, cpu, &mut jobs)?;
    }
    Ok(jobs)
}

/// Begins the passes of a CPU's lane, if it has lines.
fn begin_next<'a>(
    alloc: Global,
    plan: &Plan<'a>,
    mains: &mut MainPasses,
    cpu: CpuId,
    jobs: &mut Vec<LaneJob<'a>>,
) -> Result<(), Memory>
    requires tables { AreTables plan.now.header.now plan.now.tables.now }
    requires made { AreMadeFrom plan.now.world.now plan.now.tables.now }
    requires start { MayStart plan.now }
    requires cpu { cpu.number < plan.now.header.now.layout.cpus }
    requires below { HaveBegunOf plan.now (lanes_below cpu.number plan.now.lines.now) (mains_of mains.old)
        jobs.old.items }
    ensures { OnOk result (HaveBegunOf plan.now (lanes_below (suc cpu.number) plan.now.lines.now)
        (mains_of mains.new) jobs.new.items) }
{
    let lane = Lane::Cpu(cpu);
    let lines = LaneLines::of(plan.lines, lane);
    if !lines.is_empty() {
        let passes = begin_cpu(alloc, plan.header, plan.tables, mains, plan.world, cpu)?;
        jobs.push(LaneJob {
            lane,
            passes: LanePasses::Cpu(passes),
            lines,
        })?;
    }
    Ok(())
}

/// Begins the passes of the control lane, if it has lines.
fn begin_control_lane<'a>(
    plan: &Plan<'a>,
    mains: &mut MainPasses,
    jobs: &mut Vec<LaneJob<'a>>,
) -> Result<(), Memory>
    requires made { AreMadeFrom plan.now.world.now plan.now.tables.now }
    requires start { MayStart plan.now }
    requires below { HaveBegunOf plan.now (lanes_below plan.now.header.now.layout.cpus plan.now.lines.now)
        (mains_of mains.old) jobs.old.items }
    ensures { OnOk result (HaveBegunOf plan.now (lanes_of plan.now.header.now.layout plan.now.lines.now)
        (mains_of mains.new) jobs.new.items) }
{
    let lines = LaneLines::of(plan.lines, Lane::Control);
    if !lines.is_empty() {
        let passes = begin_control(plan.tables, mains);
        jobs.push(LaneJob {
            lane: Lane::Control,
            passes: LanePasses::Control(passes),
            lines,
        })?;
    }
    Ok(())
}
