ghost use Rattle.std.specs.Prelude.{◌≡◌, ℕ, nat_eq, ◌+◌, ℤ, pos, ◌+ℤ◌, Bool, Some, List, if◌then◌else◌, unsigned_abs};
ghost use Rattle.vms_history.specs.Common.{CpuId, PcpuId, own, HasMade, owner_in};
ghost use Rattle.vms_pcpu_core.specs.declared.answers.Compare.{Compare};
ghost use Rattle.vms_pcpu_core.specs.declared.steps.PcpuFacts.{PcpuFacts};
ghost use Rattle.vms_pcpu_core.specs.declared.steps.PcpuStep.{PcpuStep};
ghost use Rattle.vms_pcpu_core.specs.Calls.{IsRead, IsAdd, IsSync, IsFoldDead, IsSum, IsCompare, IsLimitedAdd};
ghost use Rattle.vms_pcpu_core.specs.Histories.{percpu, History};
ghost use Rattle.vms_pcpu_core.specs.MadeBetween.{MadeSteps};
ghost use Rattle.vms_pcpu_core.specs.Own.{carried};
ghost use Rattle.vms_pcpu_core.specs.OwnSteps.{IsIdle, GoesByOwnSteps, AddsAmount, LeavesIdle, added_through, size_of};
ghost use Rattle.vms_pcpu_core.specs.Steps.{role};
ghost use Rattle.vms_pcpu_core.specs.Totals.{spent};

/// What a caller holds and carries after steps in a row, and what it has added, goes by these steps and by what it held
/// and carried before.
pub fn callers_go_by_own_steps()
    ensures { (p : ℕ) (steps : List PcpuStep) (h : History) → GoesByOwnSteps p steps h }
{}

/// Each call leaves no lock held and nothing carried. An addition adds its amount, and so does a limited addition that
/// answers yes. All other calls add nothing to any counter.
pub fn calls_add_their_amounts()
    ensures read { (i j : PcpuId) (steps : List PcpuStep) (answer : ℤ) → IsRead j steps answer →
        AddsAmount i (pos 0) steps }
    ensures add { (batch : ℕ) (own : CpuId) (j : PcpuId) (amount : ℤ) (steps : List PcpuStep) →
        IsAdd batch own j amount steps → AddsAmount j amount steps }
    ensures sync { (i : PcpuId) (cpu : CpuId) (j : PcpuId) (steps : List PcpuStep) → IsSync cpu j steps →
        AddsAmount i (pos 0) steps }
    ensures fold_dead { (i : PcpuId) (dead : CpuId) (n : ℕ) (steps : List PcpuStep) →
        IsFoldDead dead n steps → AddsAmount i (pos 0) steps }
    ensures total { (i : PcpuId) (cpus : List CpuId) (j : PcpuId) (steps : List PcpuStep) (answer : ℤ) →
        IsSum cpus j steps answer → AddsAmount i (pos 0) steps }
    ensures compare { (i : PcpuId) (unknown : ℕ) (cpus : List CpuId) (j : PcpuId) (rhs : ℤ)
        (steps : List PcpuStep) (answer : Compare) → IsCompare unknown cpus j rhs steps answer →
        AddsAmount i (pos 0) steps }
    ensures limited_add { (batch unknown : ℕ) (cpus : List CpuId) (own : CpuId) (j : PcpuId)
        (limit amount : ℤ) (steps : List PcpuStep) (answer : Bool) →
        IsLimitedAdd batch unknown cpus own j limit amount steps answer →
        AddsAmount j (if answer then amount else pos 0) steps }
{}

/// A caller that held no lock and carried nothing before such a call holds and carries nothing after it, and has added
/// the amount.
pub fn calls_leave_callers_idle()
    ensures { (facts : PcpuFacts) (earlier later : History) (p : ℕ) (j : PcpuId) (amount : ℤ)
        (steps : List PcpuStep) → MadeSteps facts earlier later p steps → AddsAmount j amount steps →
        IsIdle (own earlier p) → LeavesIdle earlier later p j amount }
{}

/// While a pass owns a CPU, the CPU spends what the pass's own steps add in size, and no more, whatever others do
/// meanwhile.
pub fn owners_spend_by_own_steps()
    ensures { (facts : PcpuFacts) (earlier later : History) (p : ℕ) (cpu : CpuId) (steps : List PcpuStep) →
        HasMade percpu facts later earlier p steps → owner_in role earlier p ≡ Some cpu → (j : ℕ) →
        pos (spent later cpu.number j) ≡
        pos (spent earlier cpu.number j) +ℤ added_through size_of j steps (carried j (own earlier p)) }
{}

/// While a pass that owns a CPU makes such a call, the CPU spends the size of the amount of the call's counter, and
/// nothing of another counter, whatever others do meanwhile.
pub fn calls_spend_their_amounts()
    ensures { (facts : PcpuFacts) (earlier later : History) (p : ℕ) (cpu : CpuId) (j : PcpuId) (amount : ℤ)
        (steps : List PcpuStep) → HasMade percpu facts later earlier p steps → AddsAmount j amount steps →
        IsIdle (own earlier p) → owner_in role earlier p ≡ Some cpu → (i : ℕ) →
        spent later cpu.number i ≡
        spent earlier cpu.number i + (if nat_eq j.number i then unsigned_abs amount else 0) }
{}
