ghost use Rattle.std.specs.Prelude.{◌≡◌, ◌≤◌, ◌^◌, length, List, Option, unsigned_abs};
ghost use Rattle.vms_history.specs.Common.{CpuId, present_from};
ghost use Rattle.vms_pcpu_core.specs.declared.steps.PcpuStep.{PcpuStep};
ghost use Rattle.vms_pcpu_core.specs.Common.{IsCompare, sign_of as sign_in};
ghost use Rattle.vms_plain_pcpu.specs.Answers.{ComparesTotal};
ghost use Rattle.vms_plain_pcpu.specs.FreeLocks.{LeadsAlone, under_free_locks};
ghost use Rattle.vms_plain_pcpu.specs.Numbers.{HasLocals, HasRoomFor, unknown_in};

use crate::places::count;
use crate::summing::{sum, unknown};
use vms_base::{CpuState, PcpuId};
use vms_pcpu_core::{Compare, PcpuState};

/// Compares a counter with a number (`__percpu_counter_compare` of lib/percpu_counter.c): by the shared part alone
/// where that is further off than what the CPUs may hold, and else by the sum. `states` has the state of each CPU.
pub fn compare(counters: &PcpuState, states: &[CpuState], counter: PcpuId, rhs: i64) -> Compare
    requires room { HasRoomFor counters.now counter.number }
    requires cpus { HasLocals counters.now (length states.now) }
    requires few { length states.now ≤ 128 }
    requires rhs { unsigned_abs rhs ≤ 2 ^ 62 }
    ensures compares { ComparesTotal counters.now states.now counter.number rhs result }
    ensures made { (who : Option CpuId) → (steps : List PcpuStep)
        × IsCompare (unknown_in counters.now states.now counter.number) (present_from 0 states.now) counter rhs steps
        result
        × LeadsAlone who steps (under_free_locks counters.now) (under_free_locks counters.now) }
{
    let off = count(counters, counter) - rhs;
    if off.unsigned_abs() > unknown(counters, states, counter) {
        return Compare {
            sign: sign(off),
            rough: true,
        };
    }
    Compare {
        sign: sign(sum(counters, states, counter) - rhs),
        rough: false,
    }
}

/// 1, 0 or -1.
#[inline]
fn sign(value: i64) -> i8
    ensures { result ≡ sign_in value }
{
    if value > 0 {
        1
    } else if value < 0 {
        -1
    } else {
        0
    }
}
