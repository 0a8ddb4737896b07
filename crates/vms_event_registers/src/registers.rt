use vms_base::{CpuId, EventId};
use vms_cells::{Grid, Tally};
use vms_event_core::EventState;

/// What stands after a history of event counters.
#[derive(Debug, Drop)]
pub struct EventRegisters {
    pub(crate) state: EventState,
    /// The lowest-numbered CPU that is online.
    pub(crate) lowest: CpuId,
    /// What a CPU has counted, by CPU and event.
    pub(crate) spent: Grid<u64>,
    /// What the pass in a slot carries, by slot and event.
    pub(crate) carried: Tally,
}

/// How many events are counted.
pub(crate) const EVENTS: usize = 8;

ghost use Rattle.std.specs.Prelude.{◌≡◌, ◌<◌, length};
ghost use Rattle.vms_history.specs.Common.{cell};
ghost use Rattle.vms_event_core.specs.Common.{event_count, with_word, word_at};

/// Where the word of a CPU for an event stands.
#[inline]
fn place(cpu: CpuId, event: EventId) -> usize
    ensures { result ≡ cell event_count cpu.number event.number }
{
    cpu.number as usize * EVENTS + event.number as usize
}

#[inline]
pub(crate) fn word(state: &EventState, cpu: CpuId, event: EventId) -> u64
    requires { cell event_count cpu.number event.number < length state.now.words }
    ensures { result ≡ word_at state.now cpu.number event.number }
{
    state.words.get(place(cpu, event))
}

#[inline]
pub(crate) fn set_word(state: &mut EventState, cpu: CpuId, event: EventId, value: u64)
    requires { cell event_count cpu.number event.number < length state.old.words }
    ensures { state.new ≡ with_word state.old cpu.number event.number value }
{
    state.words.set(place(cpu, event), value);
}
