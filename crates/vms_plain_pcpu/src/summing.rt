ghost use Rattle.std.specs.Prelude.{◌≡◌, ◌+◌, ◌*◌, ◌<◌, ◌≤◌, length, List, Option, unsigned_abs, count_by};
ghost use Rattle.vms_history.specs.Common.{CpuId, is_present as tells_present, present_from};
ghost use Rattle.vms_pcpu_core.specs.declared.steps.PcpuStep.{PcpuStep};
ghost use Rattle.vms_pcpu_core.specs.Common.{most_batch, IsSum, most_sum};
ghost use Rattle.vms_plain_pcpu.specs.FreeLocks.{LeadsAlone, under_free_locks};
ghost use Rattle.vms_plain_pcpu.specs.Numbers.{HasLocals, HasRoomFor, locals_over, total_in, unknown_in};

use crate::places::{batch, count, local};
use vms_base::{CpuId, CpuState, PcpuId};
use vms_pcpu_core::PcpuState;

/// A counter with what the CPUs hold of it that are online or dead (`__percpu_counter_sum` of lib/percpu_counter.c).
/// `states` has the state of each CPU.
pub fn sum(counters: &PcpuState, states: &[CpuState], counter: PcpuId) -> i64
    requires room { HasRoomFor counters.now counter.number }
    requires cpus { HasLocals counters.now (length states.now) }
    requires few { length states.now ≤ 128 }
    ensures total { result ≡ total_in counters.now states.now counter.number }
    ensures bound { unsigned_abs result ≤ most_sum }
    ensures made { (who : Option CpuId) → (steps : List PcpuStep)
        × IsSum (present_from 0 states.now) counter steps result
        × LeadsAlone who steps (under_free_locks counters.now) (under_free_locks counters.now) }
{
    count(counters, counter) + locals(counters, states, counter)
}

/// What the CPUs hold of a counter that are online or dead.
fn locals(counters: &PcpuState, states: &[CpuState], counter: PcpuId) -> i64
    requires room { HasRoomFor counters.now counter.number }
    requires cpus { HasLocals counters.now (length states.now) }
    requires few { length states.now ≤ 128 }
    ensures sum { result ≡ locals_over counters.now counter.number (present_from 0 states.now) }
    ensures bound { unsigned_abs result ≤ 128 * most_batch }
{
    let mut sum = 0;
    for (number, state) in states.iter().enumerate() {
        let cpu = CpuId {
            number: number as u32,
        };
        if is_present(*state) {
            sum += local(counters, cpu, counter);
        }
    }
    sum
}

/// What the local parts of a counter may hide from its shared part: a batch for each CPU that is online or dead.
pub(crate) fn unknown(counters: &PcpuState, states: &[CpuState], counter: PcpuId) -> u64
    requires room { HasRoomFor counters.now counter.number }
    requires few { length states.now ≤ 128 }
    ensures unknown { result ≡ unknown_in counters.now states.now counter.number }
    ensures bound { result ≤ 128 * most_batch }
{
    u64::from(batch(counters, counter)) * present_cpus(states)
}

/// How many CPUs are online or dead.
fn present_cpus(states: &[CpuState]) -> u64
    ensures count { result ≡ count_by tells_present states.now }
    ensures bound { result ≤ length states.now }
{
    states.iter().filter(|state| is_present(**state)).count() as u64
}

#[inline]
fn is_present(state: CpuState) -> bool
    ensures { result ≡ tells_present state }
{
    match state {
        CpuState::Online | CpuState::Dead => true,
        CpuState::Absent => false,
    }
}
