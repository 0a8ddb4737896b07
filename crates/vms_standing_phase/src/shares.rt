use std::alloc::Global;
use std::marker::Model;
use std::sync::Arc;
use vms_base::{Header, Memory};
use vms_calc::Rule;
use vms_lane::LanePasses;
use vms_phase::LaneDone;
use vms_script::PhaseScript;
use vms_standing::Answers;
use vms_tables::Tables;
use vms_text::Lane;

/// What the lanes of a phase share: the tables that they change, and what they read. It borrows nothing of the phase.
#[derive(Drop)]
pub struct PhaseShare<N, P> {
    pub header: Header,
    pub tables: Tables,
    pub script: PhaseScript,
    pub normal: N,
    pub pressure: P,
}

/// A lane that is to run, as a value that borrows nothing of the phase: its passes, and what the lanes share, among
/// which its lines stand.
#[derive(Drop)]
pub struct StandingJob<N, P> {
    pub(crate) share: Arc<PhaseShare<N, P>, Global>,
    pub(crate) lane: Lane,
    pub(crate) passes: LanePasses,
    /// How many lines the lane has.
    pub(crate) count: usize,
}

impl<N, P> Model for StandingJob<N, P> {
    ghost use Rattle.std.specs.Prelude.{◌≡◌, length};
    ghost use Rattle.std.specs.Arc.{arc_value};
    ghost use Rattle.vms_world.specs.Common.{lane_items};
    ghost use Rattle.vms_standing_phase.specs.Lanes.{StandingLane, lane_job};

    ghost Value = { StandingLane N P };

    ghost view = { λ one. record {
      share = arc_value one.share;
      job = lane_job one.lane one.passes (arc_value one.share).script;
    } };

    ghost invariant = { λ one. one.count ≡ length (lane_items one.lane (arc_value one.share).script) };
}

impl<N: Rule, P: Rule> Answers<StandingJob<N, P>> for Result<LaneDone, Memory> {
    ghost use Rattle.vms_standing_phase.specs.Lanes.{MayBeMade, WasMade};

    ghost asks = { MayBeMade N.accepts N.answers P.accepts P.answers };

    ghost answers = { WasMade P.answers N.answers };
}
