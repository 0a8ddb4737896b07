ghost use Rattle.std.specs.Prelude.{◌≡◌, List, Some};
ghost use Rattle.vms_pcpu_core.specs.declared.steps.PcpuFacts.{PcpuFacts};
ghost use Rattle.vms_pcpu_core.specs.declared.steps.PcpuStep.{PcpuStep};
ghost use Rattle.vms_pcpu_core.specs.Common.{IsPcpuCall};
ghost use Rattle.vms_plain_pcpu.specs.FreeLocks.{LeadsAlone, under_free_locks};
ghost use Rattle.vms_plain_pcpu.specs.PlainCalls.{AnswersCall, HasLocalsForCall, HasRoomForCall, with_call};

use crate::{add, compare, limited_add, read, sum, sync};
use vms_base::{CpuId, CpuState};
use vms_pcpu_core::{PcpuAnswer, PcpuCall, PcpuState};

/// Makes a call on a CPU, and answers it. `states` has the state of each CPU.
pub fn call(counters: &mut PcpuState, states: &[CpuState], cpu: CpuId, call: PcpuCall) -> PcpuAnswer
    requires room { HasRoomForCall counters.old call }
    requires locals { HasLocalsForCall counters.old states.now cpu call }
    ensures after { counters.new ≡ with_call states.now cpu call result counters.old }
    ensures answers { AnswersCall counters.old states.now call result }
    ensures made { (facts : PcpuFacts) → facts.cpus ≡ states.now → facts.base.batch ≡ counters.old.batch →
        (steps : List PcpuStep) × IsPcpuCall facts (Some cpu) call steps result
        × LeadsAlone (Some cpu) steps (under_free_locks counters.old) (under_free_locks counters.new) }
{
    match call {
        PcpuCall::Add(counter, amount) => {
            add(counters, cpu, counter, amount);
            PcpuAnswer::Done
        }
        PcpuCall::LimitedAdd(counter, limit, amount) => {
            let made = limited_add(counters, states, cpu, counter, limit, amount);
            PcpuAnswer::Limited(made)
        }
        PcpuCall::Compare(counter, rhs) => {
            PcpuAnswer::Compared(compare(counters, states, counter, rhs))
        }
        PcpuCall::Sum(counter) => PcpuAnswer::Total(sum(counters, states, counter)),
        PcpuCall::Read(counter) => PcpuAnswer::Count(read(counters, counter)),
        PcpuCall::Sync(counter) => {
            sync(counters, cpu, counter);
            PcpuAnswer::Done
        }
        PcpuCall::FoldDead(_) => PcpuAnswer::Done,
    }
}
