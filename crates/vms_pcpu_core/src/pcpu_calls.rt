ghost use Rattle.std.specs.Prelude.{◌≡◌, ℕ, ◌≤◌, List, ◌++◌, Option, unsigned_abs};
ghost use Rattle.vms_history.specs.Common.{CpuId};
ghost use Rattle.vms_pcpu_core.specs.declared.answers.PcpuAnswer.{PcpuAnswer};
ghost use Rattle.vms_pcpu_core.specs.declared.pcpu_calls.PcpuCall.{PcpuCall};
ghost use Rattle.vms_pcpu_core.specs.declared.steps.PcpuFacts.{PcpuFacts};
ghost use Rattle.vms_pcpu_core.specs.declared.steps.PcpuStep.{PcpuStep};
ghost use Rattle.vms_pcpu_core.specs.PcpuCalls.{AddsAmounts, IsPcpuCall, MakesCalls, pcpu_added, pcpu_spent};
ghost use Rattle.vms_pcpu_core.specs.PcpuCalls.{read_pcpu_call};

use vms_base::{CpuId, PcpuId};

/// A call on the percpu counters. All but the fold are made by a pass that owns a CPU.
#[derive(Clone, Copy, Debug, PartialEq, Eq)]
pub enum PcpuCall {
    /// Adds an amount (`percpu_counter_add_batch` of lib/percpu_counter.c).
    Add(PcpuId, i64),
    /// Adds an amount, the last number, where the sum stays within a limit, the first. This project's own.
    LimitedAdd(PcpuId, i64, i64),
    /// Compares with a number (`__percpu_counter_compare` of lib/percpu_counter.c).
    Compare(PcpuId, i64),
    /// Sums up over all CPUs (`__percpu_counter_sum` of lib/percpu_counter.c).
    Sum(PcpuId),
    /// Reads the shared part alone (`percpu_counter_read` of include/linux/percpu_counter.h).
    Read(PcpuId),
    /// Moves what the own CPU holds into the shared part (`percpu_counter_sync` of lib/percpu_counter.c).
    Sync(PcpuId),
    /// Moves all that a dead CPU holds into the shared parts (`percpu_counter_cpu_dead` of lib/percpu_counter.c). The
    /// control pass alone makes it.
    FoldDead(CpuId),
}

/// A pass that may make a call may make its steps, whatever others do between them. The steps leave no lock held and
/// nothing carried, and add what the call is for, which is at most what it may spend. They tell its answer, and where
/// they end among further steps.
pub fn calls_keep_their_laws()
    ensures may { MakesCalls }
    ensures adds { (facts : PcpuFacts) (who : Option CpuId) (call : PcpuCall) (steps : List PcpuStep)
        (answer : PcpuAnswer) → IsPcpuCall facts who call steps answer →
        AddsAmounts (pcpu_added call answer) steps }
    ensures spends { (call : PcpuCall) (answer : PcpuAnswer) (j : ℕ) →
        unsigned_abs (pcpu_added call answer j) ≤ pcpu_spent call j }
    ensures tells { (facts : PcpuFacts) (who : Option CpuId) (call : PcpuCall) (steps more : List PcpuStep)
        (answer : PcpuAnswer) → IsPcpuCall facts who call steps answer →
        read_pcpu_call facts call (steps ++ more) ≡ (answer, more) }
{}
