ghost use Rattle.std.specs.Prelude.{◌≡◌, ℕ, pos, ◌+ℤ◌, Some, List, []};
ghost use Rattle.vms_history.specs.Common.{CpuId, after, total, HasMade, owner_in};
ghost use Rattle.vms_core.specs.declared.steps.Facts.{Facts};
ghost use Rattle.vms_core.specs.declared.steps.Step.{Step};
ghost use Rattle.vms_core.specs.Pages.{pages, History};
ghost use Rattle.vms_core.specs.Steps.{role};
ghost use Rattle.vms_core.specs.Totals.{change_size, spent};

/// While a pass owns a CPU, the CPU spends what the pass's own steps change, and no more.
pub fn owners_spend_by_own_steps()
    ensures { (facts : Facts) (later earlier : History) (p : ℕ) (steps : List Step) (c : CpuId) →
        HasMade pages facts later earlier p steps → owner_in role earlier p ≡ Some c →
        (k : ℕ) → pos (spent later c.number k)
        ≡ pos (spent earlier c.number k) +ℤ total (change_size k) (after p steps []) }
{}
