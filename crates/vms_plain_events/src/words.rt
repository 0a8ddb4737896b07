ghost use Rattle.std.specs.Prelude.{◌≡◌, ◌+◌, ◌<◌, ◌^◌};
ghost use Rattle.vms_history.specs.Common.{cell};
ghost use Rattle.vms_event_core.specs.Common.{IsEvent, event_count, with_word, word_at};
ghost use Rattle.vms_plain_events.specs.PlainWords.{HasWords};

use vms_base::{CpuId, EventId};
use vms_event_core::EventState;

/// How many events are counted.
pub(crate) const EVENTS: u32 = 8;

/// Where the word of a CPU for an event stands.
#[inline]
fn place(cpu: CpuId, event: EventId) -> usize
    ensures { result ≡ cell event_count cpu.number event.number }
{
    cpu.number as usize * EVENTS as usize + event.number as usize
}

#[inline]
pub(crate) fn word(events: &EventState, cpu: CpuId, event: EventId) -> u64
    requires cpu { HasWords events.now (cpu.number + 1) }
    requires event { IsEvent event.number }
    ensures { result ≡ word_at events.now cpu.number event.number }
{
    events.words.get(place(cpu, event))
}

#[inline]
pub(crate) fn set_word(events: &mut EventState, cpu: CpuId, event: EventId, value: u64)
    requires cpu { HasWords events.old (cpu.number + 1) }
    requires event { IsEvent event.number }
    ensures { events.new ≡ with_word events.old cpu.number event.number value }
{
    events.words.set(place(cpu, event), value);
}

#[inline]
pub(crate) fn grow(events: &mut EventState, cpu: CpuId, event: EventId, n: u64)
    requires cpu { HasWords events.old (cpu.number + 1) }
    requires event { IsEvent event.number }
    requires room { word_at events.old cpu.number event.number + n < 2 ^ 64 }
    ensures { events.new ≡ with_word events.old cpu.number event.number
        (word_at events.old cpu.number event.number + n) }
{
    let sum = word(events, cpu, event) + n;
    set_word(events, cpu, event, sum);
}
