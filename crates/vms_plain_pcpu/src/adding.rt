ghost use Rattle.std.specs.Prelude.{◌≡◌, ◌+◌, ◌<◌, ◌≤◌, ◌+ℤ◌, List, Option, Some, pos, unsigned_abs};
ghost use Rattle.vms_history.specs.Common.{CpuId, most_volume};
ghost use Rattle.vms_pcpu_core.specs.declared.steps.PcpuStep.{PcpuStep};
ghost use Rattle.vms_pcpu_core.specs.Common.{IsAdd, IsSync, batch_at, count_at, local_at};
ghost use Rattle.vms_plain_pcpu.specs.FreeLocks.{LeadsAlone, under_free_locks};
ghost use Rattle.vms_plain_pcpu.specs.Numbers.{HasLocals, HasRoomFor, with_added, with_local_added, with_local_moved};

use crate::places::{batch, count, local, place};
use vms_base::{CpuId, PcpuId};
use vms_pcpu_core::PcpuState;

/// Adds an amount to a counter on a CPU (`percpu_counter_add_batch` of lib/percpu_counter.c): to the local part where
/// that stays below the batch, and else to the shared part, together with the local part.
#[inline]
pub fn add(counters: &mut PcpuState, cpu: CpuId, counter: PcpuId, amount: i64)
    requires room { HasRoomFor counters.old counter.number }
    requires cpu { HasLocals counters.old (cpu.number + 1) }
    requires amount { unsigned_abs amount ≤ most_volume }
    ensures added { counters.new ≡ with_added cpu.number counter.number amount counters.old }
    ensures total { count_at counters.new counter.number +ℤ local_at counters.new cpu.number counter.number
        ≡ (count_at counters.old counter.number +ℤ local_at counters.old cpu.number counter.number) +ℤ amount }
    ensures made { (steps : List PcpuStep)
        × IsAdd (batch_at counters.old counter.number) cpu counter amount steps
        × LeadsAlone (Some cpu) steps (under_free_locks counters.old) (under_free_locks counters.new) }
{
    let sum = local(counters, cpu, counter) + amount;
    if sum.unsigned_abs() < u64::from(batch(counters, counter)) {
        add_local(counters, cpu, counter, amount);
    } else {
        move_local(counters, cpu, counter, amount);
    }
}

/// Moves what a CPU holds of a counter into the shared part (`percpu_counter_sync` of lib/percpu_counter.c).
#[inline]
pub fn sync(counters: &mut PcpuState, cpu: CpuId, counter: PcpuId)
    requires room { HasRoomFor counters.old counter.number }
    requires cpu { HasLocals counters.old (cpu.number + 1) }
    ensures moved { counters.new ≡ with_local_moved cpu.number counter.number (pos 0) counters.old }
    ensures total { count_at counters.new counter.number +ℤ local_at counters.new cpu.number counter.number
        ≡ count_at counters.old counter.number +ℤ local_at counters.old cpu.number counter.number }
    ensures made { (who : Option CpuId) → (steps : List PcpuStep) × IsSync cpu counter steps
        × LeadsAlone who steps (under_free_locks counters.old) (under_free_locks counters.new) }
{
    move_local(counters, cpu, counter, 0);
}

#[inline]
pub(crate) fn add_local(counters: &mut PcpuState, cpu: CpuId, counter: PcpuId, amount: i64)
    requires room { HasRoomFor counters.old counter.number }
    requires cpu { HasLocals counters.old (cpu.number + 1) }
    requires amount { unsigned_abs amount ≤ most_volume }
    ensures { counters.new ≡ with_local_added cpu.number counter.number amount counters.old }
{
    let sum = local(counters, cpu, counter) + amount;
    let at = place(counters, cpu, counter);
    counters.local.set(at, sum);
}

/// Moves what a CPU holds of a counter into the shared part, together with an amount.
#[inline]
pub(crate) fn move_local(counters: &mut PcpuState, cpu: CpuId, counter: PcpuId, amount: i64)
    requires room { HasRoomFor counters.old counter.number }
    requires cpu { HasLocals counters.old (cpu.number + 1) }
    requires amount { unsigned_abs amount ≤ most_volume }
    ensures { counters.new ≡ with_local_moved cpu.number counter.number amount counters.old }
{
    let moved = local(counters, cpu, counter) + amount;
    let sum = count(counters, counter) + moved;
    let at = place(counters, cpu, counter);
    counters.local.set(at, 0);
    counters.count.set(counter.number as usize, sum);
}
