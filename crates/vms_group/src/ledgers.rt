ghost use Rattle.vms_group_core.specs.declared.states.GroupState.{GroupState};
ghost use Rattle.vms_group_core.specs.declared.steps.GroupStep.TheVariants.{Split, Join};
ghost use Rattle.vms_group_core.specs.Common.{groups, quiet_groups};
ghost use Rattle.vms_group.specs.SharedWords.{shown, told, begins_it, ends_it, no_facts};

use vms_group_core::{GroupFacts, GroupStep};
use vms_seats::Ledger;

/// The words of a tree of groups that threads share: the values, and what is pending from children and from CPUs.
#[derive(Debug, Drop)]
pub struct SharedGroups;

impl Ledger for SharedGroups {
    type Facts = GroupFacts;

    type Step = GroupStep;

    ghost State = { GroupState };

    ghost machine = { groups };

    ghost quiet = { quiet_groups };

    ghost shown = { shown };

    ghost told = { told };

    ghost begins = { Split };

    ghost begins_it = { begins_it };

    ghost ends = { Join };

    ghost ends_it = { ends_it };

    ghost blank = { no_facts };
}
