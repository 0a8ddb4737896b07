ghost use Rattle.vms_pcpu_core.specs.declared.steps.PcpuStep.TheVariants.{Split, Join};
ghost use Rattle.vms_pcpu_core.specs.Common.{percpu, quiet_percpu, LockedState};
ghost use Rattle.vms_pcpu.specs.SharedWords.{shown, told, begins_it, ends_it, no_facts};

use vms_pcpu_core::{PcpuFacts, PcpuStep};
use vms_seats::Ledger;

/// The words of the percpu counters that threads share: the shared parts, the locks and the local parts.
#[derive(Debug, Drop)]
pub struct SharedPcpu;

impl Ledger for SharedPcpu {
    type Facts = PcpuFacts;

    type Step = PcpuStep;

    ghost State = { LockedState };

    ghost machine = { percpu };

    ghost quiet = { quiet_percpu };

    ghost shown = { shown };

    ghost told = { told };

    ghost begins = { Split };

    ghost begins_it = { begins_it };

    ghost ends = { Join };

    ghost ends_it = { ends_it };

    ghost blank = { no_facts };
}
