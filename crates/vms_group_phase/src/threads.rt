ghost use Rattle.std.specs.Prelude.{All, IfOk};
ghost use Rattle.vms_group_phase.specs.LaneRuns.{HasRunJob, HaveRunJobs, MayRunJob};

use crate::jobs::{LaneDone, LaneJob, run_job};
use std::alloc::Global;
use std::thread::Threads;
use vms_base::Memory;
use vms_group::GroupTable;
use vms_jobs::{Gate, map_jobs};

/// Makes the lines of jobs side by side: those of the first on this thread, and those of each other one on a thread of
/// its own. Returns once all are made, with the results in the order of the jobs.
pub(crate) fn run_jobs<R: Threads + Sync, G: Gate>(
    rt: &R,
    alloc: Global,
    gate: &G,
    table: &GroupTable,
    jobs: Vec<LaneJob<'_>>,
) -> Result<Vec<Result<LaneDone, Memory>>, Memory>
    requires { All (MayRunJob table.now) jobs.items }
    ensures { IfOk result (λ results. HaveRunJobs table.now jobs.entry.items results.items) }
{
    let results = map_jobs(
        rt,
        jobs,
        &|job: LaneJob<'_>| -> Result<LaneDone, Memory>
            requires { MayRunJob table.now job }
            ensures { IfOk result (HasRunJob table.entry.now job.entry) }
        { run_job(alloc, gate, table, job) },
    )?;
    Ok(results)
}
