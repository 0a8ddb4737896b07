ghost use Rattle.std.specs.Prelude.{◌≡◌, length};
ghost use Rattle.vms_world.specs.Common.{lane_items};
ghost use Rattle.vms_standing_phase.specs.Lanes.{MayBeMade, WasMade, lane_job};

use crate::shares::{PhaseShare, StandingJob};
use std::sync::Wait;
use vms_base::Memory;
use vms_calc::{Rule, Rules};
use vms_jobs::Gate;
use vms_lane::{Host, LaneLines, LanePasses};
use vms_phase::{LaneDone, LaneJob, run_job};
use vms_text::Lane;

/// Makes the lines of a lane, whatever the other lanes make meanwhile. When it returns it holds nothing of the phase
/// but the passes. It may wait for the locks of percpu counters.
pub fn make_job<R: Wait, G: Gate, N: Rule + Copy, P: Rule + Copy>(
    host: &Host<'_, R, G>,
    job: StandingJob<N, P>,
) -> Result<LaneDone, Memory>
    requires { MayBeMade N.accepts N.answers P.accepts P.answers job }
    ensures { WasMade P.answers N.answers job result }
{
    let StandingJob {
        share,
        lane,
        passes,
        count,
    } = job;
    make_lane(host, &*share, lane, passes, count)
}

fn make_lane<R: Wait, G: Gate, N: Rule + Copy, P: Rule + Copy>(
    host: &Host<'_, R, G>,
    share: &PhaseShare<N, P>,
    lane: Lane,
    passes: LanePasses,
    count: usize,
) -> Result<LaneDone, Memory>
    requires count { count ≡ length (lane_items lane share.now.script) }
    requires may { MayBeMade N.accepts N.answers P.accepts P.answers
        (record { share = share.now; job = lane_job lane passes share.now.script }) }
    ensures { WasMade P.answers N.answers
        (record { share = share.now; job = lane_job lane passes share.now.script }) result }
{
    let rules = Rules::make(share.normal, share.pressure);
    let job = LaneJob {
        lane,
        passes,
        lines: LaneLines::with_count(&share.script, lane, count),
    };
    run_job(host, &share.tables, &share.header, &rules, job)
}
