ghost use Rattle.std.specs.Prelude.{◌≡◌, ◌≢◌, ◌≤◌, ◌+◌, ◌^◌, ◌+ℤ◌, length, List, Some, pos, int_le, unsigned_abs, true};
ghost use Rattle.vms_history.specs.Common.{is_present, present_from, state_at, most_volume};
ghost use Rattle.vms_pcpu_core.specs.declared.steps.PcpuStep.{PcpuStep};
ghost use Rattle.vms_pcpu_core.specs.Common.{IsLimitedAdd, room as room_of, batch_at};
ghost use Rattle.vms_plain_pcpu.specs.Answers.{AnswersByLimit};
ghost use Rattle.vms_plain_pcpu.specs.FreeLocks.{LeadsAlone, under_free_locks};
ghost use Rattle.vms_plain_pcpu.specs.Numbers.{HasLocals, HasRoomFor, total_in, unknown_in, with_limited};
ghost use Rattle.vms_plain_pcpu.specs.Numbers.{goes_unlocked as may_go_unlocked};

use crate::adding::{add_local, move_local};
use crate::places::{batch, count, local};
use crate::summing::{sum, unknown};
use vms_base::{CpuId, CpuState, PcpuId};
use vms_pcpu_core::PcpuState;

/// Adds an amount to a counter on a CPU where the counter then keeps a limit, and says whether it does. The limit is
/// the most for a positive amount, and the least for a negative one. `states` has the state of each CPU. No counterpart
/// in Linux 6.1.
pub fn limited_add(
    counters: &mut PcpuState,
    states: &[CpuState],
    cpu: CpuId,
    counter: PcpuId,
    limit: i64,
    amount: i64,
) -> bool
    requires room { HasRoomFor counters.old counter.number }
    requires cpus { HasLocals counters.old (length states.now) }
    requires few { length states.now ≤ 128 }
    requires present { is_present (state_at states.now cpu.number) ≡ true }
    requires limit { unsigned_abs limit ≤ 2 ^ 62 }
    requires amount { unsigned_abs amount ≤ most_volume }
    ensures keeps { AnswersByLimit counters.old states.now counter.number limit amount result }
    ensures after { counters.new ≡
        with_limited result states.now cpu.number counter.number limit amount counters.old }
    ensures made { (steps : List PcpuStep)
        × IsLimitedAdd (batch_at counters.old counter.number) (unknown_in counters.old states.now counter.number)
        (present_from 0 states.now) cpu counter limit amount steps result
        × LeadsAlone (Some cpu) steps (under_free_locks counters.old) (under_free_locks counters.new) }
{
    if amount == 0 {
        return true;
    }
    if goes_unlocked(counters, states, cpu, counter, limit, amount) {
        add_local(counters, cpu, counter, amount);
        return true;
    }
    let keeps = keeps_limit(counters, states, counter, limit, amount);
    if keeps {
        move_local(counters, cpu, counter, amount);
    }
    keeps
}

/// Whether the local part stays within the batch, and the limit is further off than what the CPUs may hold.
fn goes_unlocked(
    counters: &PcpuState,
    states: &[CpuState],
    cpu: CpuId,
    counter: PcpuId,
    limit: i64,
    amount: i64,
) -> bool
    requires room { HasRoomFor counters.now counter.number }
    requires few { length states.now ≤ 128 }
    requires cpu { HasLocals counters.now (cpu.number + 1) }
    requires limit { unsigned_abs limit ≤ 2 ^ 62 }
    requires amount { unsigned_abs amount ≤ most_volume }
    ensures { result ≡ may_go_unlocked counters.now states.now cpu.number counter.number limit amount }
{
    let sum = local(counters, cpu, counter) + amount;
    sum.unsigned_abs() <= u64::from(batch(counters, counter))
        && room(limit, amount, count(counters, counter))
            >= unknown(counters, states, counter) as i64
}

/// Whether a counter keeps a limit with an amount: by the shared part alone where what the CPUs may hold can't matter,
/// and else by the sum.
fn keeps_limit(
    counters: &PcpuState,
    states: &[CpuState],
    counter: PcpuId,
    limit: i64,
    amount: i64,
) -> bool
    requires room { HasRoomFor counters.now counter.number }
    requires cpus { HasLocals counters.now (length states.now) }
    requires few { length states.now ≤ 128 }
    requires limit { unsigned_abs limit ≤ 2 ^ 62 }
    requires amount { unsigned_abs amount ≤ most_volume }
    ensures { result ≡
        int_le (pos 0) (room_of limit amount (total_in counters.now states.now counter.number +ℤ amount)) }
{
    let unknown = unknown(counters, states, counter) as i64;
    let left = room(limit, amount, count(counters, counter) + amount);
    if left >= unknown {
        return true;
    }
    if left + unknown < 0 {
        return false;
    }
    room(limit, amount, sum(counters, states, counter) + amount) >= 0
}

/// How far a value is from the limit, on the side on which an amount may lead.
#[inline]
fn room(limit: i64, amount: i64, value: i64) -> i64
    requires limit { unsigned_abs limit ≤ 2 ^ 62 }
    requires value { unsigned_abs value ≤ 2 ^ 61 + 2 ^ 60 }
    ensures room { result ≡ room_of limit amount value }
    ensures bound { unsigned_abs result ≤ 2 ^ 62 + 2 ^ 61 + 2 ^ 60 }
{
    if amount > 0 {
        limit - value
    } else {
        value - limit
    }
}
