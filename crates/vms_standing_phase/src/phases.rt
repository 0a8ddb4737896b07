ghost use Rattle.std.specs.Prelude.{◌≡◌, [], All, IfOk};
ghost use Rattle.std.specs.Arc.{arc_value};
ghost use Rattle.vms_answers.specs.Common.{answers_of, merged, HasPlace, told_by};
ghost use Rattle.vms_world.specs.Common.{IsHeader, IsThresholdRule, Fits, Start, lanes_of, left_by};
ghost use Rattle.vms_file_order.specs.Common.{IsStartOf, MakeInAnyOrder};
ghost use Rattle.vms_phase.specs.Common.{HaveFactsOf, HaveJoinedLanes, histories_of};
ghost use Rattle.vms_tables.specs.Common.{AreFrom, HaveSeenNothing, mains_of, AreMadeFrom, AreTables};

use crate::copies::{copied_header, copied_script};
use crate::jobs::standing_jobs;
use crate::owners::owned;
use crate::shares::{PhaseShare, StandingJob};
use crate::works::LaneCrew;
use std::alloc::Global;
use std::sync::{Arc, Wait};
use vms_base::{Header, Memory};
use vms_calc::{Rule, Rules};
use vms_lane::CountedLines;
use vms_phase::{JoinedLane, LaneDone, PhaseDone, Plan, begin_lanes, end_phase, join_run_jobs};
use vms_script::PhaseScript;
use vms_standing::{Starts, Work};
use vms_tables::{MainPasses, Tables};
use vms_world::World;

/// Runs the lines of a phase from a world, each lane on a thread that stands, and the last on this one, and returns
/// once all have ended. The header and the lines are copied, since these threads borrow nothing of a phase. The
/// histories are one phase of these lines, by the rules of thresholds that are given, and begin with the tables of the
/// world: the world that is returned is the one that they leave, and what the lines answered is what they tell.
pub fn run_standing_phase<'s, 'w, E, C, W, R, N, P>(
    rt: &R,
    alloc: Global,
    crew: &mut LaneCrew<'s, 'w, E, C, W, N, P>,
    header: &Header,
    normal: N,
    pressure: P,
    world: World,
    script: &PhaseScript,
) -> Result<PhaseDone, Memory>
where
    C: Starts<E>,
    W: Work<StandingJob<N, P>, Result<LaneDone, Memory>>,
    R: Wait,
    N: Rule + Copy,
    P: Rule + Copy,
    requires header { IsHeader header.now }
    requires start { (start : Start) × IsStartOf header.now start world × Fits header.now start script.now }
    requires normal { IsThresholdRule (N.accepts normal) (N.answers normal) }
    requires pressure { IsThresholdRule (P.accepts pressure) (P.answers pressure) }
    ensures phase { IfOk result (λ done. MakeInAnyOrder header.now (P.answers pressure)
        (N.answers normal) world script.now (histories_of done.histories)) }
    ensures facts { IfOk result (λ done. HaveFactsOf header.now world done.histories) }
    ensures world { IfOk result (λ done. done.world
        ≡ left_by header.now world script.now (histories_of done.histories)) }
    ensures answers { IfOk result (λ done. answers_of header.now world script.now (histories_of done.histories)
        ≡ merged script.now (told_by done.lanes.items)) }
    ensures places { IfOk result (λ done. All (λ item. HasPlace done.lanes.items item.lane) script.now) }
{
    let (tables, mut mains) = Tables::make(alloc, header, &world)?;
    let (tables, lanes) = run_shared(
        rt, alloc, crew, header, normal, pressure, tables, &mut mains, &world, script,
    )?;
    let rules = Rules::make(normal, pressure);
    end_phase(alloc, header, &rules, tables, mains, world, script, lanes)
}

/// Makes the lines of a phase from tables in which nothing was made yet, and gives the tables back. Returns the lanes
/// that have lines too, once their passes have ended: those of CPUs in ascending order, and then the control lane.
fn run_shared<'s, 'w, E, C, W, R, N, P>(
    rt: &R,
    alloc: Global,
    crew: &mut LaneCrew<'s, 'w, E, C, W, N, P>,
    header: &Header,
    normal: N,
    pressure: P,
    tables: Tables,
    mains: &mut MainPasses,
    world: &World,
    script: &PhaseScript,
) -> Result<(Tables, Vec<JoinedLane>), Memory>
where
    C: Starts<E>,
    W: Work<StandingJob<N, P>, Result<LaneDone, Memory>>,
    R: Wait,
    N: Rule + Copy,
    P: Rule + Copy,
    requires header { IsHeader header.now }
    requires tables { AreTables header.now tables }
    requires made { AreMadeFrom world.now tables }
    requires of { AreFrom tables (mains_of mains.old) }
    requires nothing { HaveSeenNothing (mains_of mains.old) }
    requires start { (start : Start) × IsStartOf header.now start world.now × Fits header.now start script.now }
    requires normal { IsThresholdRule (N.accepts normal) (N.answers normal) }
    requires pressure { IsThresholdRule (P.accepts pressure) (P.answers pressure) }
    ensures tables { IfOk result (λ run. run.0 ≡ tables) }
    ensures joined { IfOk result (λ run. HaveJoinedLanes header.now (P.answers pressure)
        (N.answers normal) tables world.now script.now (lanes_of header.now.layout script.now)
        (mains_of mains.new) run.1.items []) }
{
    let shared = shared_by_lanes(alloc, header, normal, pressure, tables, script)?;
    let lanes = run_lanes(rt, alloc, crew, &shared, &*shared, mains, world)?;
    Ok((tables_of(rt, shared), lanes))
}

/// What the lanes share, with copies of the header and the lines.
fn shared_by_lanes<N: Drop, P: Drop>(
    alloc: Global,
    header: &Header,
    normal: N,
    pressure: P,
    tables: Tables,
    script: &PhaseScript,
) -> Result<Arc<PhaseShare<N, P>, Global>, Memory>
    ensures header { IfOk result (λ shared. (arc_value shared).header ≡ header.now) }
    ensures tables { IfOk result (λ shared. (arc_value shared).tables ≡ tables) }
    ensures script { IfOk result (λ shared. (arc_value shared).script ≡ script.now) }
    ensures normal { IfOk result (λ shared. (arc_value shared).normal ≡ normal) }
    ensures pressure { IfOk result (λ shared. (arc_value shared).pressure ≡ pressure) }
{
    let header = copied_header(alloc, header)?;
    let script = copied_script(alloc, script)?;
    let share = PhaseShare {
        header,
        tables,
        script,
        normal,
        pressure,
    };
    Arc::new(alloc, share).map_err(Memory::from)
}

/// The tables that the lanes shared, once this is their only owner.
fn tables_of<R: Wait, N: Drop, P: Drop>(rt: &R, shared: Arc<PhaseShare<N, P>, Global>) -> Tables
    ensures { result ≡ (arc_value shared).tables }
{
    let PhaseShare {
        header: _,
        tables,
        script: _,
        normal: _,
        pressure: _,
    } = owned(rt, shared);
    tables
}

/// Makes the lines of a phase from what its lanes share.
fn run_lanes<'s, 'w, E, C, W, R, N, P>(
    rt: &R,
    alloc: Global,
    crew: &mut LaneCrew<'s, 'w, E, C, W, N, P>,
    shared: &Arc<PhaseShare<N, P>, Global>,
    share: &PhaseShare<N, P>,
    mains: &mut MainPasses,
    world: &World,
) -> Result<Vec<JoinedLane>, Memory>
where
    C: Starts<E>,
    W: Work<StandingJob<N, P>, Result<LaneDone, Memory>>,
    R: Wait,
    N: Rule + Copy,
    P: Rule + Copy,
    requires same { share.now ≡ arc_value shared.now }
    requires header { IsHeader share.now.header }
    requires tables { AreTables share.now.header share.now.tables }
    requires made { AreMadeFrom world.now share.now.tables }
    requires of { AreFrom share.now.tables (mains_of mains.old) }
    requires nothing { HaveSeenNothing (mains_of mains.old) }
    requires start { (start : Start) × IsStartOf share.now.header start world.now
        × Fits share.now.header start share.now.script }
    requires normal { IsThresholdRule (N.accepts share.now.normal) (N.answers share.now.normal) }
    requires pressure { IsThresholdRule (P.accepts share.now.pressure) (P.answers share.now.pressure) }
    ensures { IfOk result (λ joined. HaveJoinedLanes share.now.header (P.answers share.now.pressure)
        (N.answers share.now.normal) share.now.tables world.now share.now.script
        (lanes_of share.now.header.layout share.now.script) (mains_of mains.new) joined.items []) }
{
    let lines = CountedLines::of(alloc, &share.header, &share.script)?;
    let plan = Plan {
        header: &share.header,
        tables: &share.tables,
        world,
        lines: &lines,
    };
    let jobs = begin_lanes(alloc, &plan, mains)?;
    let standing = standing_jobs(alloc, shared, jobs)?;
    let results = crew.make_all(rt, alloc, standing)?;
    let rules = Rules::make(share.normal, share.pressure);
    join_run_jobs(alloc, &plan, &rules, mains, results)
}
