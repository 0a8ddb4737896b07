ghost use Rattle.std.specs.Prelude.{◌≡◌, ◌≢◌, ℕ, true, ℤ, pos, List};
ghost use Rattle.vms_history.specs.Common.{CpuId, PcpuId};
ghost use Rattle.vms_pcpu_core.specs.Common.{IsCompare, IsLimitedAdd, present_cpus, unknown, History, MadeSteps};
ghost use Rattle.vms_pcpu_core.specs.Common.{batch_at};
ghost use Rattle.vms_pcpu_core.specs.declared.answers.Compare.{Compare};
ghost use Rattle.vms_pcpu_core.specs.declared.steps.PcpuFacts.{PcpuFacts};
ghost use Rattle.vms_pcpu_core.specs.declared.steps.PcpuStep.{PcpuStep};
ghost use Rattle.vms_percpu_near.specs.Adds.{AddsCarryNothing};
ghost use Rattle.vms_percpu_near.specs.Answers.{StaysWithinLimit, TellsSign};

/// A rough comparison tells the sign of the true total minus the other number, at the moment of its load, where nobody
/// adds to a local part while it carries something of the counter.
pub fn compare_tells_true_sign()
    ensures { (facts : PcpuFacts) (earlier later : History) (p : ℕ) (j : PcpuId) (rhs : ℤ) (steps : List PcpuStep)
        (answer : Compare) → MadeSteps facts earlier later p steps → AddsCarryNothing later →
        IsCompare (unknown facts j.number) (present_cpus facts) j rhs steps answer → answer.rough ≡ true →
        TellsSign facts earlier later p j rhs answer }
{}

/// A limited addition that says yes keeps its limit, where nobody adds to a local part while it carries something of
/// the counter. Others can push the total past the limit by no more than what they added since the call loaded the
/// shared part for the last time.
pub fn limited_add_stays_within_limit()
    ensures { (facts : PcpuFacts) (earlier later : History) (p : ℕ) (cpu : CpuId) (j : PcpuId) (limit amount : ℤ)
        (steps : List PcpuStep) → MadeSteps facts earlier later p steps → AddsCarryNothing later →
        amount ≢ pos 0 →
        IsLimitedAdd (batch_at facts.base j.number) (unknown facts j.number) (present_cpus facts)
        cpu j limit amount steps true → StaysWithinLimit facts earlier later p j limit amount }
{}
