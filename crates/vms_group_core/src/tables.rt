ghost use Rattle.vms_group_core.specs.declared.states.GroupState.{GroupState};
ghost use Rattle.vms_group_core.specs.Histories.{groups};
ghost use Rattle.vms_group_core.specs.Quiet.{quiet_groups};

use crate::{GroupFacts, GroupStep};
use vms_history::Table;

/// The table of a tree of groups, for the laws that hold of every table.
#[derive(Debug, Drop)]
pub struct Groups;

impl Table for Groups {
    type Facts = GroupFacts;

    type Step = GroupStep;

    ghost State = { GroupState };

    ghost machine = { groups };

    ghost quiet = { quiet_groups };
}
