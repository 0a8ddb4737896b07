ghost use Rattle.std.specs.Prelude.{◌≡◌, [], All, IfOk};
ghost use Rattle.vms_answers.specs.Common.{answers_of, merged, HasPlace, told_by};
ghost use Rattle.vms_world.specs.Common.{IsHeader, Fits, Start, lanes_of, left_by};
ghost use Rattle.vms_file_order.specs.Common.{MakeInAnyOrder, IsStartOf};
ghost use Rattle.vms_phase.specs.JoinedLanes.{HaveJoinedLanes};
ghost use Rattle.vms_phase.specs.SideBySide.{HaveFactsOf, histories_of};
ghost use Rattle.vms_tables.specs.Common.{mains_of, AreFrom, AreMadeFrom, AreTables, HaveSeenNothing};

use crate::closings::ClosedHistories;
use crate::lane_joins::JoinedLane;
use crate::laws::fitting_lanes_make_phases;
use crate::placing::place_answers;
use crate::rule_laws::lanes_make_phases_by;
use crate::rules::Least;
use crate::runs::run_lanes;
use crate::side_by_side::{MadePhase, close_lanes};
use std::alloc::Global;
use std::sync::Wait;
use std::thread::Threads;
use vms_answers::LaneAnswers;
use vms_base::{Header, Memory};
use vms_calc::{Rule, Rules};
use vms_jobs::Gate;
use vms_lane::Host;
use vms_script::PhaseScript;
use vms_tables::{MainPasses, Tables};
use vms_world::World;

/// A phase that was run.
#[derive(Drop)]
pub struct PhaseDone {
    /// The world that it leaves.
    pub world: World,
    /// What the lines of each lane answered, each lane's in its place.
    pub lanes: Vec<LaneAnswers>,
    pub histories: ClosedHistories,
}

/// Runs the lines of a phase from a world, each lane on a thread of its own, the control lane among them, and returns
/// once all have ended. The histories are one phase of these lines, by the rules of thresholds that are given, and
/// begin with the tables of the world: the world that is returned is the one that they leave, and what the lines
/// answered is what they tell.
pub fn run_phase<G: Gate, R: Threads + Wait + Sync, N: Rule + Sync, P: Rule + Sync>(
    rt: &R,
    alloc: Global,
    gate: &G,
    header: &Header,
    rules: &Rules<N, P>,
    world: World,
    script: &PhaseScript,
) -> Result<PhaseDone, Memory>
    requires header { IsHeader header.now }
    requires start { (start : Start) × IsStartOf header.now start world × Fits header.now start script.now }
    ensures phase { IfOk result (λ done. MakeInAnyOrder header.now (P.answers rules.now.pressure)
        (N.answers rules.now.normal) world script.now (histories_of done.histories)) }
    ensures facts { IfOk result (λ done. HaveFactsOf header.now world done.histories) }
    ensures world { IfOk result (λ done. done.world
        ≡ left_by header.now world script.now (histories_of done.histories)) }
    ensures answers { IfOk result (λ done. answers_of header.now world script.now (histories_of done.histories)
        ≡ merged script.now (told_by done.lanes.items)) }
    ensures places { IfOk result (λ done. All (λ item. HasPlace done.lanes.items item.lane) script.now) }
{
    let host = Host { rt, alloc, gate };
    let (tables, mains) = Tables::make(alloc, header, &world)?;
    run_over(&host, header, rules, tables, mains, world, script)
}

/// Runs the lines over the tables that were made of the world.
fn run_over<G: Gate, R: Threads + Wait + Sync, N: Rule + Sync, P: Rule + Sync>(
    host: &Host<'_, R, G>,
    header: &Header,
    rules: &Rules<N, P>,
    tables: Tables,
    mut mains: MainPasses,
    world: World,
    script: &PhaseScript,
) -> Result<PhaseDone, Memory>
    requires header { IsHeader header.now }
    requires tables { AreTables header.now tables }
    requires made { AreMadeFrom world tables }
    requires of { AreFrom tables (mains_of mains) }
    requires nothing { HaveSeenNothing (mains_of mains) }
    requires start { (start : Start) × IsStartOf header.now start world × Fits header.now start script.now }
    ensures phase { IfOk result (λ done. MakeInAnyOrder header.now (P.answers rules.now.pressure)
        (N.answers rules.now.normal) world script.now (histories_of done.histories)) }
    ensures facts { IfOk result (λ done. HaveFactsOf header.now world done.histories) }
    ensures world { IfOk result (λ done. done.world
        ≡ left_by header.now world script.now (histories_of done.histories)) }
    ensures answers { IfOk result (λ done. answers_of header.now world script.now (histories_of done.histories)
        ≡ merged script.now (told_by done.lanes.items)) }
    ensures places { IfOk result (λ done. All (λ item. HasPlace done.lanes.items item.lane) script.now) }
{
    let lanes = run_lanes(host, header, &tables, rules, &mut mains, &world, script)?;
    end_phase(
        host.alloc, header, rules, tables, mains, world, script, lanes,
    )
}

/// Ends a phase whose lanes have ended: closes its tables, and writes into the world that it began with how they and
/// the volumes stand then. The histories are one phase of the lines, by the rules that the lanes went by.
pub fn end_phase<N: Rule, P: Rule>(
    alloc: Global,
    header: &Header,
    rules: &Rules<N, P>,
    tables: Tables,
    mains: MainPasses,
    world: World,
    script: &PhaseScript,
    lanes: Vec<JoinedLane>,
) -> Result<PhaseDone, Memory>
    requires header { IsHeader header.now }
    requires tables { AreTables header.now tables }
    requires from { AreMadeFrom world tables }
    requires start { (start : Start) × IsStartOf header.now start world × Fits header.now start script.now }
    requires joined { HaveJoinedLanes header.now (P.answers rules.now.pressure) (N.answers rules.now.normal) tables
        world script.now (lanes_of header.now.layout script.now) (mains_of mains) lanes.items [] }
    ensures phase { IfOk result (λ done. MakeInAnyOrder header.now (P.answers rules.now.pressure)
        (N.answers rules.now.normal) world script.now (histories_of done.histories)) }
    ensures facts { IfOk result (λ done. HaveFactsOf header.now world done.histories) }
    ensures world { IfOk result (λ done. done.world
        ≡ left_by header.now world script.now (histories_of done.histories)) }
    ensures answers { IfOk result (λ done. answers_of header.now world script.now (histories_of done.histories)
        ≡ merged script.now (told_by done.lanes.items)) }
    ensures places { IfOk result (λ done. All (λ item. HasPlace done.lanes.items item.lane) script.now) }
{
    lanes_make_phases_by(rules);
    fitting_lanes_make_phases::<Least>();
    let mut world = world;
    let MadePhase { lanes, histories } = close_lanes(
        header, rules, tables, mains, &mut world, script, lanes,
    );
    let lanes = place_answers(alloc, header, lanes)?;
    Ok(PhaseDone {
        world,
        lanes,
        histories,
    })
}
