ghost use Rattle.std.specs.Prelude.{◌≡◌, ◌+◌, ◌<◌, length};
ghost use Rattle.vms_history.specs.Common.{cell};
ghost use Rattle.vms_pcpu_core.specs.Common.{batch_at, counters_of, count_at, local_at};
ghost use Rattle.vms_plain_pcpu.specs.Numbers.{HasLocals};

use vms_base::{CpuId, PcpuId};
use vms_pcpu_core::PcpuState;

/// Where the local part of a CPU for a counter stands.
#[inline]
pub(crate) fn place(counters: &PcpuState, cpu: CpuId, counter: PcpuId) -> usize
    requires cpu { HasLocals counters.now (cpu.number + 1) }
    requires counter { counter.number < counters_of counters.now }
    ensures cell { result ≡ cell (counters_of counters.now) cpu.number counter.number }
    ensures within { result < length counters.now.local }
{
    let _ = counters.local.len();
    cpu.number as usize * counters.batch.len() + counter.number as usize
}

#[inline]
pub(crate) fn local(counters: &PcpuState, cpu: CpuId, counter: PcpuId) -> i64
    requires cpu { HasLocals counters.now (cpu.number + 1) }
    requires counter { counter.number < counters_of counters.now }
    ensures { result ≡ local_at counters.now cpu.number counter.number }
{
    counters.local.get(place(counters, cpu, counter))
}

#[inline]
pub(crate) fn batch(counters: &PcpuState, counter: PcpuId) -> u32
    requires { counter.number < counters_of counters.now }
    ensures { result ≡ batch_at counters.now counter.number }
{
    counters.batch.get(counter.number as usize)
}

#[inline]
pub(crate) fn count(counters: &PcpuState, counter: PcpuId) -> i64
    requires { counter.number < length counters.now.count }
    ensures { result ≡ count_at counters.now counter.number }
{
    counters.count.get(counter.number as usize)
}
