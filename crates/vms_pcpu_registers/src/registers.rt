use vms_base::{CpuId, PcpuId, Row};
use vms_cells::{Grid, Tally};
use vms_pcpu_core::PcpuState;

/// What stands after a history of percpu counters.
#[derive(Debug, Drop)]
pub struct PcpuRegisters {
    pub(crate) numbers: PcpuState,
    /// Whether the lock of a counter is held.
    pub(crate) held: Row<bool>,
    /// What a CPU has spent, by CPU and counter.
    pub(crate) spent: Grid<u64>,
    /// What the pass in a slot carries, by slot and counter.
    pub(crate) carried: Grid<i64>,
    /// 1 where the pass in a slot holds the lock of a counter, by slot and counter, and else 0.
    pub(crate) locks: Tally,
}

ghost use Rattle.std.specs.Prelude.{◌≡◌, ◌<◌, length, slice_set};
ghost use Rattle.vms_history.specs.Common.{cell};
ghost use Rattle.vms_pcpu_core.specs.Common.{counters_of, local_at};

/// Where the local part of a CPU for a counter stands.
#[inline]
fn place(numbers: &PcpuState, cpu: CpuId, counter: PcpuId) -> usize
    requires { cell (counters_of numbers.now) cpu.number counter.number < length numbers.now.local }
    ensures { result ≡ cell (counters_of numbers.now) cpu.number counter.number }
{
    let _ = numbers.local.len();
    cpu.number as usize * numbers.batch.len() + counter.number as usize
}

#[inline]
pub(crate) fn local(numbers: &PcpuState, cpu: CpuId, counter: PcpuId) -> i64
    requires { cell (counters_of numbers.now) cpu.number counter.number < length numbers.now.local }
    ensures { result ≡ local_at numbers.now cpu.number counter.number }
{
    numbers.local.get(place(numbers, cpu, counter))
}

#[inline]
pub(crate) fn set_local(numbers: &mut PcpuState, cpu: CpuId, counter: PcpuId, value: i64)
    requires { cell (counters_of numbers.old) cpu.number counter.number < length numbers.old.local }
    ensures { numbers.new ≡ record numbers.old {
      local = slice_set numbers.old.local (cell (counters_of numbers.old) cpu.number counter.number) value;
    } }
{
    let at = place(numbers, cpu, counter);
    numbers.local.set(at, value);
}
