ghost use Rattle.std.specs.Prelude.{◌≡◌, ◌<◌, ◌^◌, List};
ghost use Rattle.vms_history.specs.Common.{Dead};
ghost use Rattle.vms_pcpu_core.specs.declared.steps.PcpuStep.{PcpuStep};
ghost use Rattle.vms_pcpu_core.specs.Common.{IsFoldDead, percpu, counters_of, cpu_at};
ghost use Rattle.vms_pcpu.specs.Answers.{HasFoldedDead};
ghost use Rattle.vms_seats.specs.Common.{IsFrom, Made};

use crate::locking::Waiting;
use crate::passes::PcpuControl;
use crate::tables::PcpuTable;
use std::sync::Wait;
use vms_base::{CpuId, PcpuId};

impl PcpuTable {
    /// Moves the local parts of a dead CPU to the shared parts of all counters (`percpu_counter_cpu_dead` of
    /// lib/percpu_counter.c), each under its counter's lock, for which it waits. When it returns, each local part has
    /// moved once, whoever else folded the CPU, and none is left.
    pub fn fold_dead<R: Wait>(&self, rt: &R, pass: &mut PcpuControl, dead: CpuId)
        requires table { IsFrom pass.old self.now }
        requires dead { cpu_at self.now.facts dead.number ≡ Dead }
        requires few { counters_of self.now.facts.base < 2 ^ 32 }
        ensures made { (steps : List PcpuStep) × IsFoldDead dead (counters_of self.now.facts.base) steps
            × Made percpu pass.new pass.old steps }
        ensures folded { HasFoldedDead pass.new dead }
    {
        for number in 0..self.facts.base.batch.len() as u32 {
            match self.sync_by(&Waiting(rt), &mut pass.worker, dead, PcpuId { number }) {
                Ok(()) => (),
                Err(_) => unreachable!(),
            }
        }
    }
}
