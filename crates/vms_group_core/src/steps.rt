use crate::{GroupState, Tree};
use vms_base::CpuId;

/// What is known of a tree of groups from the start.
#[derive(Debug, Drop)]
pub struct GroupFacts {
    pub tree: Tree,
    /// The words that its histories begin with.
    pub base: GroupState,
}

/// One atomic step on the words of a tree of groups. The first number is that of a group; "own" is the CPU that the
/// acting pass owns.
#[derive(Clone, Copy, Debug, PartialEq, Eq)]
pub enum GroupStep {
    /// Adds an amount to the own pending word of a group.
    AddP(u32, i64),
    /// Swaps a CPU's pending word of a group with 0, which tells the amount that stood. The pass carries it for the
    /// group's value.
    TakeP(CpuId, u32, i64),
    /// The same of the word that is pending from the group's children.
    TakeU(u32, i64),
    /// Adds what the pass carries for a group's value to it. Where the group has a parent, the pass then carries the
    /// amount for the parent's pending word.
    AddV(u32, i64),
    /// Adds an amount that the pass carries from one child of a group to the word that is pending from its children.
    AddU(u32, i64),
    /// Loads a group's value, which tells the amount that stands.
    LoadV(u32, i64),
    /// Begins a pass, which owns a CPU or none.
    Split(u32, Option<CpuId>),
    /// Ends a pass.
    Join(u32),
}

/// A step on the words of a tree of groups with the number of its pass.
pub type Event = vms_history::Event<GroupStep>;
