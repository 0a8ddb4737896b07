ghost use Rattle.std.specs.Prelude.{◌≡◌, ℕ, ℤ, Bool, List, ◌++◌};
ghost use Rattle.vms_history.specs.Common.{CpuId, PcpuId};
ghost use Rattle.vms_pcpu_core.specs.declared.answers.Compare.{Compare};
ghost use Rattle.vms_pcpu_core.specs.declared.steps.PcpuStep.{PcpuStep};
ghost use Rattle.vms_pcpu_core.specs.Calls.{IsRead, IsAdd, IsSync, IsFoldDead, IsSum, IsCompare, IsLimitedAdd};
ghost use Rattle.vms_pcpu_core.specs.Readings.{read_count, read_add, read_sync, read_fold_dead, read_sum, read_compare};
ghost use Rattle.vms_pcpu_core.specs.Readings.{read_limited_add};

/// The steps of a read tell its answer, and where they end among further steps.
pub fn read_is_told()
    ensures { (j : PcpuId) (steps more : List PcpuStep) (answer : ℤ) → IsRead j steps answer →
        read_count (steps ++ more) ≡ (answer, more) }
{}

/// The steps of an addition tell where they end among further steps. It answers nothing.
pub fn add_is_told()
    ensures { (batch : ℕ) (own : CpuId) (j : PcpuId) (amount : ℤ) (steps more : List PcpuStep) →
        IsAdd batch own j amount steps → read_add (steps ++ more) ≡ (tt, more) }
{}

/// The steps that move one local part tell where they end among further steps.
pub fn sync_is_told()
    ensures { (cpu : CpuId) (j : PcpuId) (steps more : List PcpuStep) → IsSync cpu j steps →
        read_sync (steps ++ more) ≡ (tt, more) }
{}

/// The steps that move all local parts of a dead CPU tell where they end among further steps.
pub fn fold_dead_is_told()
    ensures { (dead : CpuId) (n : ℕ) (steps more : List PcpuStep) → IsFoldDead dead n steps →
        read_fold_dead n (steps ++ more) ≡ (tt, more) }
{}

/// The steps of a sum tell its answer, and where they end among further steps.
pub fn sum_is_told()
    ensures { (cpus : List CpuId) (j : PcpuId) (steps more : List PcpuStep) (answer : ℤ) →
        IsSum cpus j steps answer →
        read_sum (steps ++ more) ≡ (answer, more) }
{}

/// The steps of a comparison tell its answer, and where they end among further steps.
pub fn compare_is_told()
    ensures { (unknown : ℕ) (cpus : List CpuId) (j : PcpuId) (rhs : ℤ) (steps more : List PcpuStep)
        (answer : Compare) → IsCompare unknown cpus j rhs steps answer →
        read_compare unknown rhs (steps ++ more) ≡ (answer, more) }
{}

/// The steps of a limited addition tell its answer, and where they end among further steps.
pub fn limited_add_is_told()
    ensures { (batch unknown : ℕ) (cpus : List CpuId) (own : CpuId) (j : PcpuId) (limit amount : ℤ)
        (steps more : List PcpuStep) (answer : Bool) →
        IsLimitedAdd batch unknown cpus own j limit amount steps answer →
        read_limited_add amount (steps ++ more) ≡ (answer, more) }
{}
