ghost use Rattle.vms_pcpu_core.specs.Common.{percpu, Tells, LockedState};
ghost use Rattle.vms_plain_pcpu.specs.StateSteps.{percpu_by_state, IsByState-percpu};

use vms_history::StateTable;
use vms_pcpu_core::{PcpuFacts, PcpuStep};

/// The table of percpu counters, whose steps go by the numbers and the locks alone.
#[derive(Debug, Drop)]
pub struct PlainPercpu;

impl StateTable for PlainPercpu {
    type Facts = PcpuFacts;

    type Step = PcpuStep;

    ghost State = { LockedState };

    ghost machine = { percpu };

    ghost Tells = { Tells };

    ghost by_state = { percpu_by_state };

    ghost is_by_state = { IsByState-percpu };
}
