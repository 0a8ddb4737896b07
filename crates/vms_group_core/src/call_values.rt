/// A call on a tree of groups.
#[derive(Clone, Copy, Debug, PartialEq, Eq)]
pub enum GroupCall {
    /// Changes a group by an amount, on the caller's CPU (`mod_memcg_state` of include/linux/memcontrol.h).
    Change(u32, i64),
    /// Moves what is pending in the subtree of a group up to the group's value (`cgroup_rstat_flush` of
    /// kernel/cgroup/rstat.c).
    Flush(u32),
    /// Reads a group's value (`memcg_page_state` of mm/memcontrol.c).
    Value(u32),
}

/// What a call on a tree of groups answers.
#[derive(Clone, Copy, Debug, PartialEq, Eq)]
pub enum GroupAnswer {
    /// That it is made.
    Done,
    /// The value of a group.
    Value(i64),
}
