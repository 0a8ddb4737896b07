ghost use Rattle.std.specs.Prelude.{ℕ};
ghost use Rattle.vms_pcpu_core.specs.declared.steps.PcpuFacts.{PcpuFacts};
ghost use Rattle.vms_pcpu_core.specs.Endings.{IsComplete, HoldsTotals, ending, LeavesRoom, BeginsAgain, IsPaid};
ghost use Rattle.vms_pcpu_core.specs.Endings.{StaysWithinVolumes, spent_by_now};
ghost use Rattle.vms_pcpu_core.specs.Histories.{History};
ghost use Rattle.vms_pcpu_core.specs.States.{IsPcpu};

/// Where every pass has ended, all locks are free and nobody carries anything: the shared part of a counter and its
/// local parts are its true total.
pub fn complete_histories_hold_totals()
    ensures { (facts : PcpuFacts) (h : History) (j : ℕ) → IsComplete facts h → IsPcpu facts j →
        HoldsTotals facts h j }
{}

/// A complete history leaves a base, with which the next history may begin, as long as the true totals are small. They
/// are where all histories together keep to the CPUs' volumes.
pub fn complete_histories_leave_bases()
    ensures small { (facts : PcpuFacts) (h : History) → IsComplete facts h → LeavesRoom facts h →
        BeginsAgain facts h }
    ensures within_volumes { (facts : PcpuFacts) (h : History) (earlier : ℕ → ℕ → ℕ) →
        IsComplete facts h → IsPaid facts earlier → StaysWithinVolumes facts earlier h →
        BeginsAgain facts h × IsPaid (ending facts h) (spent_by_now earlier h) }
{}
