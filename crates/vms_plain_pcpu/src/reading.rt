ghost use Rattle.std.specs.Prelude.{◌≡◌, ◌<◌, length, List, Option};
ghost use Rattle.vms_history.specs.Common.{CpuId};
ghost use Rattle.vms_pcpu_core.specs.declared.steps.PcpuStep.{PcpuStep};
ghost use Rattle.vms_pcpu_core.specs.Common.{IsRead, count_at};
ghost use Rattle.vms_plain_pcpu.specs.FreeLocks.{LeadsAlone, under_free_locks};

use crate::places::count;
use vms_base::PcpuId;
use vms_pcpu_core::PcpuState;

/// The shared part of a counter, without what the CPUs hold (`percpu_counter_read` of include/linux/percpu_counter.h).
#[inline]
pub fn read(counters: &PcpuState, counter: PcpuId) -> i64
    requires { counter.number < length counters.now.count }
    ensures count { result ≡ count_at counters.now counter.number }
    ensures made { (who : Option CpuId) → (steps : List PcpuStep) × IsRead counter steps result
        × LeadsAlone who steps (under_free_locks counters.now) (under_free_locks counters.now) }
{
    count(counters, counter)
}
