use vms_group_core::GroupFacts;

/// What is known of a tree of groups from the start, and how many amounts may rise at once, over all passes. An amount
/// rises from the step that adds it to the value of a group to the one that adds it to what is pending for the group's
/// parent.
#[derive(Debug, Drop)]
pub struct BoundedFacts {
    pub groups: GroupFacts,
    pub room: usize,
}
