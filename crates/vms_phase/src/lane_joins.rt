ghost use Rattle.std.specs.Prelude.{◌≡◌, [], IfOk, OnOk, length};
ghost use Rattle.vms_lane.specs.Common.{AreReadyFor, passes_in};
ghost use Rattle.vms_phase.specs.JoinedLanes.{HasVolumesOf, HaveJoinedLanes};
ghost use Rattle.vms_phase.specs.LanePasses.{EndPasses};
ghost use Rattle.vms_tables.specs.Common.{AreFrom, mains_of};
ghost use Rattle.vms_world.specs.Common.{Lane as LaneOf, lanes_of};

use crate::control_passes::join_control;
use crate::jobs::LaneDone;
use crate::joins::lanes_go_in_turn;
use crate::passes::join_cpu;
use crate::plans::Plan;
use crate::rules::Least;
use std::alloc::Global;
use vms_answers::NumberedAnswer;
use vms_base::{CpuVolumes, Memory};
use vms_calc::{Rule, Rules};
use vms_lane::LanePasses;
use vms_tables::{MainPasses, Tables};
use vms_text::Lane;

/// A lane whose passes have ended.
#[derive(Drop)]
pub struct JoinedLane {
    pub lane: Lane,
    /// The volumes that its passes had, if it is of a CPU.
    pub volumes: Option<CpuVolumes>,
    /// What its lines answered.
    pub answers: Vec<NumberedAnswer>,
}

/// Ends the passes of lanes that have run, in their order, and returns the lanes. If no memory was found for a lane, so
/// it is here.
pub fn join_lanes<N: Rule, P: Rule>(
    alloc: Global,
    plan: &Plan<'_>,
    rules: &Rules<N, P>,
    mains: &mut MainPasses,
    results: Vec<Result<LaneDone, Memory>>,
) -> Result<Vec<JoinedLane>, Memory>
    requires { HaveJoinedLanes plan.now.header.now (P.answers rules.now.pressure) (N.answers rules.now.normal)
        plan.now.tables.now plan.now.world.now plan.now.lines.now
        (lanes_of plan.now.header.now.layout plan.now.lines.now) (mains_of mains.old) [] results.items }
    ensures { IfOk result (λ joined. HaveJoinedLanes plan.now.header.now (P.answers rules.now.pressure)
        (N.answers rules.now.normal) plan.now.tables.now plan.now.world.now plan.now.lines.now
        (lanes_of plan.now.header.now.layout plan.now.lines.now) (mains_of mains.new) joined.items []) }
{
    lanes_go_in_turn::<Least>();
    let mut lanes = Vec::new(alloc);
    for result in results {
        let joined = join_lane(plan.tables, mains, result?);
        lanes.push(joined)?;
    }
    Ok(lanes)
}

/// Ends the passes of a lane that has run.
fn join_lane(tables: &Tables, mains: &mut MainPasses, done: LaneDone) -> JoinedLane
    requires mains { AreFrom tables.now (mains_of mains.old) }
    requires ready { (lane : LaneOf) × AreReadyFor tables.now lane done.passes }
    ensures ended { EndPasses (mains_of mains.new) (mains_of mains.old) (passes_in done.passes) }
    ensures lane { result.lane ≡ done.lane }
    ensures answers { result.answers.items ≡ done.answers.items }
    ensures volumes { HasVolumesOf done.passes result.volumes }
{
    let LaneDone {
        lane,
        passes,
        answers,
    } = done;
    let volumes = join_passes(tables, mains, passes);
    JoinedLane {
        lane,
        volumes,
        answers,
    }
}

/// Ends the passes of a lane, and gives the volumes of its CPU back, if it is of one.
fn join_passes(tables: &Tables, mains: &mut MainPasses, passes: LanePasses) -> Option<CpuVolumes>
    requires mains { AreFrom tables.now (mains_of mains.old) }
    requires ready { (lane : LaneOf) × AreReadyFor tables.now lane passes }
    ensures ended { EndPasses (mains_of mains.new) (mains_of mains.old) (passes_in passes) }
    ensures volumes { HasVolumesOf passes result }
{
    match passes {
        LanePasses::Cpu(passes) => Some(join_cpu(tables, mains, passes)),
        LanePasses::Control(passes) => {
            join_control(tables, mains, passes);
            None
        }
    }
}
