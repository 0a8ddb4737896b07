use crate::State;
use vms_base::{CounterId, CpuId, CpuState, Diffs, GroupId, ItemId, Layout, Mode, PlaceId, Sizes};

/// What is known of the page counters from the start.
#[derive(Debug, Drop)]
pub struct Facts {
    pub layout: Layout,
    pub sizes: Sizes,
    /// The state that its histories begin with.
    pub base: State,
}

/// One atomic step on the page counters. A load tells the number that stands; "own" is the CPU that the acting pass
/// owns.
#[derive(Clone, Copy, Debug, PartialEq, Eq)]
pub enum Step {
    /// Loads the own threshold of a place, and how often it was set.
    LoadT(PlaceId, u32, u32),
    /// Loads a CPU's eight differentials of a group.
    LoadD(CpuId, GroupId, Diffs),
    /// An exchange that won: the counter, the list found in its group, the threshold, the change and its mode.
    Put(CounterId, Diffs, u32, i64, Mode),
    /// An exchange that lost: the group, and the list that was found before.
    Miss(GroupId, Diffs),
    /// Adds to a global value.
    AddG(CounterId, i64),
    /// Adds to a system-wide value.
    AddS(ItemId, i64),
    /// Takes a CPU's eight differentials of a group, which become 0.
    Take(CpuId, GroupId, Diffs),
    /// Loads a global value.
    LoadG(CounterId, i64),
    /// Loads a system-wide value.
    LoadS(ItemId, i64),
    /// Loads a zone's drift mark, and how often it was set.
    LoadM(PlaceId, u64, u32),
    /// Loads a CPU's state.
    LoadO(CpuId, CpuState),
    /// Sets a CPU's threshold of a place.
    SetT(CpuId, PlaceId, u32),
    /// Sets a zone's drift mark.
    SetM(PlaceId, u64),
    /// Makes a dead CPU absent.
    SetO(CpuId),
    /// Acknowledges the own threshold of a zone by its number of sets.
    SetA(PlaceId, u32),
    /// Loads what a CPU acknowledged last of a zone.
    LoadA(CpuId, PlaceId, Option<u32>),
    /// Begins a pass, which owns a CPU or is the control pass.
    Split(u32, Option<CpuId>),
    /// Ends a pass.
    Join(u32),
}

/// A step on the page counters with the number of its pass.
pub type Event = vms_history::Event<Step>;
