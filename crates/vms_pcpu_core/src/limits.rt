ghost use Rattle.std.specs.Prelude.{◌≡◌, ◌≢◌, ℕ, Bool, true, false, ℤ, pos, List, Some};
ghost use Rattle.vms_history.specs.Common.{CpuId, PcpuId, own, owner_in};
ghost use Rattle.vms_pcpu_core.specs.declared.steps.PcpuFacts.{PcpuFacts};
ghost use Rattle.vms_pcpu_core.specs.declared.steps.PcpuStep.{PcpuStep};
ghost use Rattle.vms_pcpu_core.specs.Calls.{IsLimitedAdd, present_cpus, unknown};
ghost use Rattle.vms_pcpu_core.specs.Histories.{History};
ghost use Rattle.vms_pcpu_core.specs.Limits.{IsAlone, IsExact, KeepsLimit, PassesLimit};
ghost use Rattle.vms_pcpu_core.specs.MadeBetween.{MadeSteps};
ghost use Rattle.vms_pcpu_core.specs.Own.{carried};
ghost use Rattle.vms_pcpu_core.specs.States.{batch_at};
ghost use Rattle.vms_pcpu_core.specs.Steps.{role};

/// What the answer of a limited addition means, for a pass that owns a CPU and carried nothing before. A `yes` keeps
/// the limit if nobody else adds during the call. Others can push the total past the limit by no more than what they
/// added since the call began, plus what they still carried when it loaded the shared part without the lock. A `no`
/// comes only where the amount would pass the limit, together with what others added while the call held the lock.
pub fn limited_add_keeps_limit()
    ensures yes_keeps { (facts : PcpuFacts) (earlier later : History) (p : ℕ) (cpu : CpuId) (j : PcpuId)
        (limit amount : ℤ) (steps : List PcpuStep) → MadeSteps facts earlier later p steps →
        owner_in role later p ≡ Some cpu → carried j.number (own earlier p) ≡ pos 0 → amount ≢ pos 0 →
        IsLimitedAdd (batch_at facts.base j.number) (unknown facts j.number) (present_cpus facts)
        cpu j limit amount steps true →
        KeepsLimit facts earlier later p j limit amount }
    ensures no_passes { (facts : PcpuFacts) (earlier later : History) (p : ℕ) (cpu : CpuId) (j : PcpuId)
        (limit amount : ℤ) (steps : List PcpuStep) → MadeSteps facts earlier later p steps →
        owner_in role later p ≡ Some cpu → carried j.number (own earlier p) ≡ pos 0 →
        IsLimitedAdd (batch_at facts.base j.number) (unknown facts j.number) (present_cpus facts)
        cpu j limit amount steps false →
        PassesLimit facts earlier later p j limit amount }
{}

/// The answer is exact if nobody else adds to the counter during the call or carries something for it. That is so if no
/// other caller makes a step meanwhile and none carried anything before.
pub fn limited_add_alone_is_exact()
    ensures exact { (facts : PcpuFacts) (earlier later : History) (p : ℕ) (cpu : CpuId) (j : PcpuId)
        (limit amount : ℤ) (steps : List PcpuStep) (answer : Bool) → MadeSteps facts earlier later p steps →
        owner_in role later p ≡ Some cpu → carried j.number (own earlier p) ≡ pos 0 →
        IsAlone earlier later p j.number → amount ≢ pos 0 →
        IsLimitedAdd (batch_at facts.base j.number) (unknown facts j.number) (present_cpus facts)
        cpu j limit amount steps answer →
        IsExact facts earlier later j.number limit amount answer }
    ensures alone { (earlier later : History) (p j : ℕ) →
        ((q : ℕ) → q ≢ p → own later q ≡ own earlier q) →
        ((q : ℕ) → q ≢ p → carried j (own earlier q) ≡ pos 0) → IsAlone earlier later p j }
{}
