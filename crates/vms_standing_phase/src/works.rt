use crate::shares::StandingJob;
use vms_base::Memory;
use vms_phase::LaneDone;
use vms_standing::Crew;

/// The threads of a run's lanes.
pub type LaneCrew<'s, 'w, E, C, W, N, P> = Crew<
    's,
    'w,
    E,
    C,
    W,
    StandingJob<N, P>,
    Result<LaneDone, Memory>,
>;
