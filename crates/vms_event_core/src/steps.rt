use crate::EventState;
use vms_base::{CpuId, CpuState, EventId, Layout, Row};

/// What is known of the event counters from the start.
#[derive(Debug, Drop)]
pub struct EventFacts {
    pub layout: Layout,
    /// Whether each CPU is online, dead or absent. It stays so in the whole history.
    pub cpus: Row<CpuState>,
    /// The words that its histories begin with.
    pub base: EventState,
}

/// One atomic step on the words of the event counters. "Own" is the CPU that the acting pass owns.
#[derive(Clone, Copy, Debug, PartialEq, Eq)]
pub enum EventStep {
    /// Adds a count to the own word of an event.
    AddE(EventId, u64),
    /// Loads a CPU's word of an event, which tells the number that stands.
    LoadE(CpuId, EventId, u64),
    /// Swaps a dead CPU's word of an event with 0, which tells the number that stood. The pass carries it.
    TakeE(CpuId, EventId, u64),
    /// Adds what the pass carries for an event to a CPU's word.
    AddF(CpuId, EventId, u64),
    /// Begins a pass, which owns a CPU or is the control pass.
    Split(u32, Option<CpuId>),
    /// Ends a pass.
    Join(u32),
}

/// A step on the words of the event counters with the number of its pass.
pub type Event = vms_history::Event<EventStep>;
