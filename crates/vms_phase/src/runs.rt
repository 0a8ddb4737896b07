ghost use Rattle.std.specs.Prelude.{◌≡◌, [], List, IfOk, length, map};
ghost use Rattle.vms_answers.specs.Common.{NumberedAnswer};
ghost use Rattle.vms_world.specs.Common.{Header as HeaderOf, IsHeader, Fits, Start, Item, Lane, lanes_of, AreComplete};
ghost use Rattle.vms_file_order.specs.Common.{IsStartOf};
ghost use Rattle.vms_phase.specs.declared.jobs.LaneJob.{LaneJob};
ghost use Rattle.vms_phase.specs.declared.lane_joins.JoinedLane.{JoinedLane as JoinedLaneOf};
ghost use Rattle.vms_phase.specs.Jobs.{HaveBegunOf, HaveRunJobs};
ghost use Rattle.vms_phase.specs.JoinedLanes.{AreTold, HaveJoinedLanes, seen_by, told_of};
ghost use Rattle.vms_phase.specs.LanePasses.{HaveEnded};
ghost use Rattle.vms_phase.specs.LanesMade.{AreMadeByLanes};
ghost use Rattle.vms_tables.specs.declared.tables.Tables.{Tables as TablesOf};
ghost use Rattle.vms_tables.specs.Common.{AreFrom, HaveSeenNothing, TablePasses, mains_of, AreMadeFrom, AreTables};
ghost use Rattle.vms_world.specs.declared.worlds.World.{World as WorldOf};

use crate::jobs::{LaneDone, begin_lanes};
use crate::joins::lanes_go_in_turn;
use crate::lane_joins::{JoinedLane, join_lanes};
use crate::plans::Plan;
use crate::rules::Least;
use crate::threads::run_jobs;
use std::alloc::Global;
use std::sync::Wait;
use std::thread::Threads;
use vms_base::{Header, Memory};
use vms_calc::{Rule, Rules};
use vms_jobs::Gate;
use vms_lane::{CountedLines, Host};
use vms_script::PhaseScript;
use vms_tables::{MainPasses, Tables};
use vms_world::World;

/// Makes the lines of a phase, each lane on a thread of its own, from tables in which nothing was made yet. Returns the
/// lanes that have lines, once their passes have ended: those of CPUs in ascending order, and then the control lane.
pub fn run_lanes<R: Threads + Wait + Sync, G: Gate, N: Rule + Sync, P: Rule + Sync>(
    host: &Host<'_, R, G>,
    header: &Header,
    tables: &Tables,
    rules: &Rules<N, P>,
    mains: &mut MainPasses,
    world: &World,
    script: &PhaseScript,
) -> Result<Vec<JoinedLane>, Memory>
    requires header { IsHeader header.now }
    requires tables { AreTables header.now tables.now }
    requires made { AreMadeFrom world.now tables.now }
    requires of { AreFrom tables.now (mains_of mains.old) }
    requires nothing { HaveSeenNothing (mains_of mains.old) }
    requires start { (start : Start) × IsStartOf header.now start world.now × Fits header.now start script.now }
    ensures { IfOk result (λ joined. HaveJoinedLanes header.now (P.answers rules.now.pressure)
        (N.answers rules.now.normal) tables.now world.now script.now (lanes_of header.now.layout script.now)
        (mains_of mains.new) joined.items []) }
{
    let lines = CountedLines::of(host.alloc, header, script)?;
    let plan = Plan {
        header,
        tables,
        world,
        lines: &lines,
    };
    let jobs = begin_lanes(host.alloc, &plan, mains)?;
    let results = run_jobs(host, tables, header, rules, jobs)?;
    join_run_jobs(host.alloc, &plan, rules, mains, results)
}

/// Ends the passes of the lanes of a plan, whose jobs were run with these results, in their order. Returns the lanes.
/// If no memory was found for a lane, so it is here.
pub fn join_run_jobs<N: Rule, P: Rule>(
    alloc: Global,
    plan: &Plan<'_>,
    rules: &Rules<N, P>,
    mains: &mut MainPasses,
    results: Vec<Result<LaneDone, Memory>>,
) -> Result<Vec<JoinedLane>, Memory>
    requires made { AreMadeFrom plan.now.world.now plan.now.tables.now }
    requires run { (jobs : List LaneJob)
        × HaveBegunOf plan.now (lanes_of plan.now.header.now.layout plan.now.lines.now) (mains_of mains.old) jobs
        × HaveRunJobs plan.now.header.now (P.answers rules.now.pressure) (N.answers rules.now.normal)
        plan.now.tables.now jobs results.items }
    ensures { IfOk result (λ joined. HaveJoinedLanes plan.now.header.now (P.answers rules.now.pressure)
        (N.answers rules.now.normal) plan.now.tables.now plan.now.world.now plan.now.lines.now
        (lanes_of plan.now.header.now.layout plan.now.lines.now) (mains_of mains.new) joined.items []) }
{
    lanes_go_in_turn::<Least>();
    join_lanes(alloc, plan, rules, mains, results)
}

/// Where the main passes have ended all lanes that have lines, what they have seen was made by these lanes, which were
/// told what their own lines answered.
pub fn joined_lanes_are_made<N: Rule, P: Rule>(rules: &Rules<N, P>)
    ensures ended { (header : HeaderOf) (tables : TablesOf) (w : WorldOf) (items : List Item) (mains : TablePasses)
        (joined : List JoinedLaneOf) → HaveJoinedLanes header (P.answers rules.now.pressure)
        (N.answers rules.now.normal) tables w items (lanes_of header.layout items) mains joined [] →
        HaveEnded (lanes_of header.layout items) (length (lanes_of header.layout items)) mains }
    ensures lanes { (header : HeaderOf) (tables : TablesOf) (w : WorldOf) (items : List Item) (mains : TablePasses)
        (joined : List JoinedLaneOf) → HaveJoinedLanes header (P.answers rules.now.pressure)
        (N.answers rules.now.normal) tables w items (lanes_of header.layout items) mains joined [] →
        map (λ one. one.lane) joined ≡ lanes_of header.layout items }
    ensures told { (header : HeaderOf) (tables : TablesOf) (w : WorldOf) (items : List Item) (mains : TablePasses)
        (joined : List JoinedLaneOf) → HaveJoinedLanes header (P.answers rules.now.pressure)
        (N.answers rules.now.normal) tables w items (lanes_of header.layout items) mains joined [] →
        AreTold (told_of joined) joined }
    ensures made { (header : HeaderOf) (tables : TablesOf) (w : WorldOf) (items : List Item) (mains : TablePasses)
        (joined : List JoinedLaneOf) (told : Lane → List NumberedAnswer) →
        HaveJoinedLanes header (P.answers rules.now.pressure) (N.answers rules.now.normal) tables w items
        (lanes_of header.layout items) mains joined [] → AreTold told joined → AreComplete header w (seen_by mains) →
        AreMadeByLanes header (P.answers rules.now.pressure) (N.answers rules.now.normal) w items (seen_by mains) told }
{
    let _ = rules;
}
