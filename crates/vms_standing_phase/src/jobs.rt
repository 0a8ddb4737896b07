ghost use Rattle.std.specs.Prelude.{◌≡◌, All, IfOk};
ghost use Rattle.std.specs.Arc.{arc_value};
ghost use Rattle.vms_standing.specs.Common.{Pairs};
ghost use Rattle.vms_world.specs.Common.{lane_items};

use crate::shares::{PhaseShare, StandingJob};
use std::alloc::Global;
use std::sync::Arc;
use vms_base::Memory;
use vms_phase::LaneJob;

/// The same jobs, as values that borrow nothing of the phase.
pub(crate) fn standing_jobs<N: Drop, P: Drop>(
    alloc: Global,
    shared: &Arc<PhaseShare<N, P>, Global>,
    jobs: Vec<LaneJob<'_>>,
) -> Result<Vec<StandingJob<N, P>>, Memory>
    requires { All (λ job. job.lines ≡ lane_items job.lane (arc_value shared.now).script) jobs.items }
    ensures { IfOk result (λ made. Pairs (λ job one. one ≡ record { share = arc_value shared.now; job = job })
        jobs.entry.items made.items) }
{
    let mut made = Vec::with_capacity(alloc, jobs.len())?;
    for job in jobs {
        let one = standing_job(shared, job)?;
        made.push(one)?;
    }
    Ok(made)
}

/// The same job, as a value that borrows nothing of the phase.
fn standing_job<N: Drop, P: Drop>(
    shared: &Arc<PhaseShare<N, P>, Global>,
    job: LaneJob<'_>,
) -> Result<StandingJob<N, P>, Memory>
    requires { job.lines ≡ lane_items job.lane (arc_value shared.now).script }
    ensures { IfOk result (λ one. one ≡ record { share = arc_value shared.now; job = job.entry }) }
{
    let LaneJob {
        lane,
        passes,
        lines,
    } = job;
    let share = Arc::try_clone(shared)?;
    Ok(StandingJob {
        share,
        lane,
        passes,
        count: lines.len(),
    })
}
