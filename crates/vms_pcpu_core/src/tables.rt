ghost use Rattle.vms_pcpu_core.specs.States.{LockedState};
ghost use Rattle.vms_pcpu_core.specs.Histories.{percpu};
ghost use Rattle.vms_pcpu_core.specs.Quiet.{quiet_percpu};

use crate::{PcpuFacts, PcpuStep};
use vms_history::Table;

/// The table of percpu counters, for the laws that hold of every table.
#[derive(Debug, Drop)]
pub struct Percpu;

impl Table for Percpu {
    type Facts = PcpuFacts;

    type Step = PcpuStep;

    ghost State = { LockedState };

    ghost machine = { percpu };

    ghost quiet = { quiet_percpu };
}
