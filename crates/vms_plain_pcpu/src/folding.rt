ghost use Rattle.std.specs.Prelude.{◌≡◌, ℕ, ◌+◌, ◌<◌, ◌^◌, List, None};
ghost use Rattle.vms_pcpu_core.specs.declared.steps.PcpuStep.{PcpuStep};
ghost use Rattle.vms_pcpu_core.specs.Common.{IsFoldDead, counters_of};
ghost use Rattle.vms_plain_pcpu.specs.FreeLocks.{LeadsAlone, under_free_locks};
ghost use Rattle.vms_plain_pcpu.specs.Numbers.{MovesLocals, HasLocals, HasRoomFor};

use crate::adding::sync;
use vms_base::{CpuId, PcpuId};
use vms_pcpu_core::PcpuState;

/// Moves all that a dead CPU holds into the shared parts (`percpu_counter_cpu_dead` of lib/percpu_counter.c).
pub fn fold_dead(counters: &mut PcpuState, dead: CpuId)
    requires room { (j : ℕ) → j < counters_of counters.old → HasRoomFor counters.old j }
    requires cpu { HasLocals counters.old (dead.number + 1) }
    requires few { counters_of counters.old < 2 ^ 32 }
    ensures folds { MovesLocals dead.number counters.old counters.new }
    ensures made { (steps : List PcpuStep) × IsFoldDead dead (counters_of counters.old) steps
        × LeadsAlone None steps (under_free_locks counters.old) (under_free_locks counters.new) }
{
    for number in 0..counters.batch.len() as u32 {
        sync(counters, dead, PcpuId { number });
    }
}
