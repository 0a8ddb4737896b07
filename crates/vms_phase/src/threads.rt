ghost use Rattle.std.specs.Prelude.{All, IfOk};
ghost use Rattle.vms_world.specs.Common.{IsHeader};
ghost use Rattle.vms_phase.specs.Jobs.{HasRunJob, HaveRunJobs, MayRunJob};
ghost use Rattle.vms_tables.specs.Common.{AreTables};

use crate::jobs::{LaneDone, LaneJob, run_job};
use std::sync::Wait;
use std::thread::Threads;
use vms_base::{Header, Memory};
use vms_calc::{Rule, Rules};
use vms_jobs::{Gate, map_jobs};
use vms_lane::Host;
use vms_tables::Tables;

/// Makes the lines of jobs side by side: those of the first on this thread, and those of each other one on a thread of
/// its own. Returns once all are made, with the results in the order of the jobs.
pub fn run_jobs<R: Threads + Wait + Sync, G: Gate, N: Rule + Sync, P: Rule + Sync>(
    host: &Host<'_, R, G>,
    tables: &Tables,
    header: &Header,
    rules: &Rules<N, P>,
    jobs: Vec<LaneJob<'_>>,
) -> Result<Vec<Result<LaneDone, Memory>>, Memory>
    requires header { IsHeader header.now }
    requires tables { AreTables header.now tables.now }
    requires jobs { All (MayRunJob header.now tables.now) jobs.items }
    ensures { IfOk result (λ results. HaveRunJobs header.now (P.answers rules.now.pressure)
        (N.answers rules.now.normal) tables.now jobs.entry.items results.items) }
{
    let results = map_jobs(
        host.rt,
        jobs,
        &|job: LaneJob<'_>| -> Result<LaneDone, Memory>
            requires { IsHeader header.now × AreTables header.now tables.now × MayRunJob header.now tables.now job }
            ensures { IfOk result (HasRunJob header.entry.now (P.answers rules.entry.now.pressure)
                (N.answers rules.entry.now.normal) tables.entry.now job.entry) }
        { run_job(host, tables, header, rules, job) },
    )?;
    Ok(results)
}
