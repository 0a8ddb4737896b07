ghost use Rattle.std.specs.Prelude.{◌≡◌, [], List, map};
ghost use Rattle.vms_answers.specs.Common.{NumberedAnswer};
ghost use Rattle.vms_world.specs.Common.{IsHeader, Fits, Start, Lane, lanes_of, volumes_after};
ghost use Rattle.vms_file_order.specs.Common.{IsStartOf};
ghost use Rattle.vms_phase.specs.JoinedLanes.{AreTold, HaveJoinedLanes, told_of};
ghost use Rattle.vms_phase.specs.LanesMade.{AreMadeByLanes};
ghost use Rattle.vms_phase.specs.SideBySide.{HasClosedTables, HaveFactsOf, histories_of};
ghost use Rattle.vms_tables.specs.Common.{mains_of, AreMadeFrom, AreTables};

use crate::closings::{ClosedHistories, close};
use crate::joins::fitting_lanes_have_ended;
use crate::lane_joins::JoinedLane;
use crate::rules::Least;
use crate::runs::joined_lanes_are_made;
use crate::volumes::keep_volumes;
use vms_base::Header;
use vms_calc::{Rule, Rules};
use vms_script::PhaseScript;
use vms_tables::{MainPasses, Tables};
use vms_world::World;

/// What the lanes of a phase have made.
#[derive(Drop)]
pub(crate) struct MadePhase {
    /// The lanes that have lines, with what these answered: those of CPUs in ascending order, and then the control
    /// lane.
    pub lanes: Vec<JoinedLane>,
    pub histories: ClosedHistories,
}

/// Closes the tables of a phase whose lanes have ended, and writes into the world how the tables and the volumes stand
/// then.
pub(crate) fn close_lanes<N: Rule, P: Rule>(
    header: &Header,
    rules: &Rules<N, P>,
    tables: Tables,
    mains: MainPasses,
    world: &mut World,
    script: &PhaseScript,
    lanes: Vec<JoinedLane>,
) -> MadePhase
    requires header { IsHeader header.now }
    requires tables { AreTables header.now tables }
    requires from { AreMadeFrom world.old tables }
    requires start { (start : Start) × IsStartOf header.now start world.old × Fits header.now start script.now }
    requires joined { HaveJoinedLanes header.now (P.answers rules.now.pressure) (N.answers rules.now.normal) tables
        world.old script.now (lanes_of header.now.layout script.now) (mains_of mains) lanes.items [] }
    ensures lanes { map (λ one. one.lane) result.lanes.items ≡ lanes_of header.now.layout script.now }
    ensures told { AreTold (told_of result.lanes.items) result.lanes.items }
    ensures made { (told : Lane → List NumberedAnswer) → AreTold told result.lanes.items →
        AreMadeByLanes header.now (P.answers rules.now.pressure) (N.answers rules.now.normal) world.old script.now
        (histories_of result.histories) told }
    ensures tables { HasClosedTables header.now world.old (histories_of result.histories) world.new }
    ensures facts { HaveFactsOf header.now world.old result.histories }
    ensures volumes { world.new.volumes ≡ volumes_after header.now world.old script.now }
{
    joined_lanes_are_made(rules);
    fitting_lanes_have_ended::<Least>();
    let histories = close(tables, mains, world);
    histories.are_complete();
    keep_volumes(header, &mut world.volumes, lanes.as_slice());
    MadePhase { lanes, histories }
}
