ghost use Rattle.std.specs.Prelude.{◌≤◌, ◌∷◌, ◌++◌, unsigned_abs};
ghost use Rattle.vms_history.specs.declared.events.Event.{Event};
ghost use Rattle.vms_pcpu_core.specs.declared.steps.PcpuFacts.{PcpuFacts};
ghost use Rattle.vms_pcpu_core.specs.declared.steps.PcpuStep.{PcpuStep};
ghost use Rattle.vms_pcpu_core.specs.Histories.{History, IsLegal};
ghost use Rattle.vms_pcpu_core.specs.Laws.{KeepsLaws, step_number, most_number};

/// At every moment of a legal history, all laws of the percpu counters hold.
pub fn laws_are_kept()
    ensures { (facts : PcpuFacts) (more h : History) → IsLegal facts (more ++ h) → KeepsLaws facts h }
{}

/// Each number that a step names is at most 2^60 + 128 * (2^16 + 2^48) in absolute size, which is below 2^61.
pub fn steps_name_small_numbers()
    ensures { (facts : PcpuFacts) (e : Event PcpuStep) (h : History) → IsLegal facts (e ∷ h) →
        unsigned_abs (step_number e.step) ≤ most_number }
{}
