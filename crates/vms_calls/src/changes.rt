ghost use Rattle.std.specs.Prelude.{◌≤◌, ℕ, ℤ, List};
ghost use Rattle.vms_history.specs.Common.{CounterId, CpuId, Mode, Shape};
ghost use Rattle.vms_core.specs.declared.steps.Step.{Step};
ghost use Rattle.vms_calls.specs.CallerLaws.{ChangesLeave, ChangesSpend};
ghost use Rattle.vms_calls.specs.Changes.{IsChange, miss_count};
ghost use Rattle.vms_calls.specs.LoneChanges.{GoesOnWithChange};

/// A change of a counter loses one exchange at most.
pub fn changes_miss_once()
    ensures { (shape : Shape) (cpu : CpuId) (k : CounterId) (delta : ℤ) (how : Mode)
        (steps : List Step) → IsChange shape cpu k delta how steps → miss_count steps ≤ 1 }
{}

/// Where a pass may change a counter, a legal history goes on with the steps of a change that meets no other caller.
/// Then its state is what `Plain::change` makes of the state before.
pub fn changes_follow()
    ensures { GoesOnWithChange }
{}

/// After a change its caller carries what it carried before, and its CPU has spent the size of the change more on the
/// counter, whether or not an exchange was lost.
pub fn changes_spend_their_size()
    ensures leaves { ChangesLeave }
    ensures spends { ChangesSpend }
{}
