ghost use Rattle.std.specs.Prelude.{◌≡◌, ℕ, ◌^◌, ◌<◌, ◌≤◌, ℤ, true, false, List, unsigned_abs};
ghost use Rattle.vms_history.specs.Common.{PcpuId};
ghost use Rattle.vms_pcpu_core.specs.declared.answers.Compare.{Compare};
ghost use Rattle.vms_pcpu_core.specs.declared.steps.PcpuFacts.{PcpuFacts};
ghost use Rattle.vms_pcpu_core.specs.declared.steps.PcpuStep.{PcpuStep};
ghost use Rattle.vms_pcpu_core.specs.Calls.{IsCompare, IsSum, present_cpus, unknown};
ghost use Rattle.vms_pcpu_core.specs.Histories.{History};
ghost use Rattle.vms_pcpu_core.specs.MadeBetween.{MadeSteps};
ghost use Rattle.vms_pcpu_core.specs.Summing.{SumsUp, TellsRoughly, TellsBySum, most_sum};

/// A sum answers the true total of the moment when it won the lock, plus what each CPU added to its local part from
/// there until the sum loaded that part.
pub fn sum_reads_true_total()
    ensures { (facts : PcpuFacts) (earlier later : History) (p : ℕ) (j : PcpuId) (steps : List PcpuStep)
        (answer : ℤ) → MadeSteps facts earlier later p steps → IsSum (present_cpus facts) j steps answer →
        SumsUp facts earlier later p j answer }
{}

/// A rough comparison tells the sign of the true total minus the other number, at the moment of its load and apart from
/// what was carried then. A comparison that is not rough tells the sign of a sum minus the other number.
pub fn compare_tells_sign()
    ensures rough { (facts : PcpuFacts) (earlier later : History) (p : ℕ) (j : PcpuId) (rhs : ℤ)
        (steps : List PcpuStep) (answer : Compare) → MadeSteps facts earlier later p steps →
        IsCompare (unknown facts j.number) (present_cpus facts) j rhs steps answer →
        answer.rough ≡ true → TellsRoughly facts earlier later p j rhs answer }
    ensures by_sum { (facts : PcpuFacts) (earlier later : History) (p : ℕ) (j : PcpuId) (rhs : ℤ)
        (steps : List PcpuStep) (answer : Compare) → MadeSteps facts earlier later p steps →
        IsCompare (unknown facts j.number) (present_cpus facts) j rhs steps answer →
        answer.rough ≡ false → TellsBySum facts earlier later p j rhs answer }
{}

/// A sum's answer is at most 2^60 + 128 * (2^17 + 2^48) in absolute size, and so fits 64 bits.
pub fn sums_are_small()
    ensures answer { (facts : PcpuFacts) (earlier later : History) (p : ℕ) (j : PcpuId) (steps : List PcpuStep)
        (answer : ℤ) → MadeSteps facts earlier later p steps → IsSum (present_cpus facts) j steps answer →
        unsigned_abs answer ≤ most_sum }
    ensures fits { most_sum < 2 ^ 63 }
{}
