ghost use Rattle.std.specs.Prelude.{◌≡◌, ℕ, ◌<◌, pos, List, ◌++◌};
ghost use Rattle.vms_history.specs.Common.{CpuId, Dead};
ghost use Rattle.vms_pcpu_core.specs.declared.steps.PcpuFacts.{PcpuFacts};
ghost use Rattle.vms_pcpu_core.specs.declared.steps.PcpuStep.{PcpuStep};
ghost use Rattle.vms_pcpu_core.specs.Calls.{IsFoldDead};
ghost use Rattle.vms_pcpu_core.specs.Histories.{History, IsLegal};
ghost use Rattle.vms_pcpu_core.specs.Laws.{numbers_after};
ghost use Rattle.vms_pcpu_core.specs.MadeBetween.{MadeSteps};
ghost use Rattle.vms_pcpu_core.specs.States.{IsPcpu, cpu_at, local_at};

/// Once a dead CPU was folded, its local parts are 0 and stay so, whatever others do.
pub fn fold_dead_empties_local_parts()
    ensures { (facts : PcpuFacts) (earlier later more : History) (p : ℕ) (dead : CpuId) (n : ℕ)
        (steps : List PcpuStep) → MadeSteps facts earlier later p steps → IsFoldDead dead n steps →
        cpu_at facts dead.number ≡ Dead → IsLegal facts (more ++ later) →
        (j : ℕ) → j < n → IsPcpu facts j →
        local_at (numbers_after facts (more ++ later)) dead.number j ≡ pos 0 }
{}
