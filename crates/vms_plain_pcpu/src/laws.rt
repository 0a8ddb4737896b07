ghost use Rattle.std.specs.Prelude.{◌≡◌, ℕ, ◌≤◌, ◌+ℤ◌};
ghost use Rattle.vms_pcpu_core.specs.declared.steps.PcpuFacts.{PcpuFacts};
ghost use Rattle.vms_pcpu_core.specs.Common.{unknown, History, IsLegal, numbers_after, IsPcpu, count_at, locals};
ghost use Rattle.vms_plain_pcpu.specs.Numbers.{HasLocals, HasRoomFor, total_in, unknown_in};

use vms_pcpu_core::laws_are_kept;

/// At every moment of a legal history the numbers leave room for each call, and there is a local part for each CPU of
/// the layout.
pub fn histories_leave_room()
    ensures room { (facts : PcpuFacts) (h : History) (j : ℕ) → IsLegal facts h → IsPcpu facts j →
        HasRoomFor (numbers_after facts h) j }
    ensures cpus { (facts : PcpuFacts) (h : History) (n : ℕ) → IsLegal facts h → n ≤ facts.layout.cpus →
        HasLocals (numbers_after facts h) n }
{
    laws_are_kept();
}

/// What the CPUs may hide by the numbers that stand is what they may hide by the base. And the CPUs that are present
/// hold all local parts, since an absent CPU holds none.
pub fn present_cpus_hold_all()
    ensures unknown { (facts : PcpuFacts) (h : History) (j : ℕ) → IsLegal facts h →
        unknown_in (numbers_after facts h) facts.cpus j ≡ unknown facts j }
    ensures totals { (facts : PcpuFacts) (h : History) (j : ℕ) → IsLegal facts h → IsPcpu facts j →
        total_in (numbers_after facts h) facts.cpus j
        ≡ count_at (numbers_after facts h) j +ℤ locals facts.layout (numbers_after facts h) j }
{
    laws_are_kept();
}
