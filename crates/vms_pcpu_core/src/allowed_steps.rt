ghost use Rattle.std.specs.Prelude.{◌≡◌, ℕ, List, [], ◌++◌};
ghost use Rattle.vms_history.specs.Common.{own, after, HasMade};
ghost use Rattle.vms_pcpu_core.specs.declared.steps.PcpuFacts.{PcpuFacts};
ghost use Rattle.vms_pcpu_core.specs.declared.steps.PcpuStep.{PcpuStep};
ghost use Rattle.vms_pcpu_core.specs.Histories.{percpu, History, IsLegal};
ghost use Rattle.vms_pcpu_core.specs.MadeBetween.{MadeSteps, MadeWithin};
ghost use Rattle.vms_pcpu_core.specs.MayCall.{MakesRead, MakesAdd, MakesSync, MakesFoldDead, MakesSum, MakesCompare};
ghost use Rattle.vms_pcpu_core.specs.MayCall.{MakesLimitedAdd};

/// Steps that stand in a row among a caller's own events of a legal history were made between two moments of it, each
/// of which is a legal history too. So what is promised of a call holds of each call in any legal history. It holds of
/// the steps that a living pass has made, too.
pub fn calls_stand_in_histories()
    ensures within { (facts : PcpuFacts) (h : History) (p : ℕ) (before steps more : List PcpuStep) →
        IsLegal facts h → own h p ≡ after p (before ++ steps ++ more) [] →
        MadeWithin facts h p before steps }
    ensures by_living { (facts : PcpuFacts) (earlier later : History) (p : ℕ) (steps : List PcpuStep) →
        HasMade percpu facts later earlier p steps → MadeSteps facts earlier later p steps }
{}

/// A pass that lives, holds no lock and carries nothing may make the steps of each call, whatever other callers do
/// between them: each step may be made where it tells the number that stands, and finds the lock as it is. Additions
/// need a CPU that the pass owns and whose volume allows the amount. A local part may be moved by the owner of its CPU,
/// and by the control pass if the CPU is dead.
pub fn calls_may_be_made()
    ensures read { MakesRead }
    ensures add { MakesAdd }
    ensures sync { MakesSync }
    ensures fold_dead { MakesFoldDead }
    ensures total { MakesSum }
    ensures compare { MakesCompare }
    ensures limited_add { MakesLimitedAdd }
{}
