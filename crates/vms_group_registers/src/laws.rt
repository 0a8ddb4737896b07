ghost use Rattle.std.specs.Prelude.{◌↔◌};
ghost use Rattle.vms_history.specs.Common.{IsLegal};
ghost use Rattle.vms_group_core.specs.Common.{History, groups};
ghost use Rattle.vms_group_registers.specs.declared.facts.BoundedFacts.{BoundedFacts};
ghost use Rattle.vms_group_registers.specs.Bounded.{HadRoom, bounded_groups};

/// Where there is so much room, a history is legal exactly if it is legal anyway, and there was room for each of its
/// steps.
pub fn room_is_all_that_is_asked()
    ensures { (facts : BoundedFacts) (h : History) →
        IsLegal bounded_groups facts h ↔ (IsLegal groups facts.groups h × HadRoom facts.groups.tree facts.room h) }
{}
