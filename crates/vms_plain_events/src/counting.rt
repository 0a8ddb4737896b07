ghost use Rattle.std.specs.Prelude.{◌≡◌, ◌+◌, ◌<◌, ◌^◌, List, Some};
ghost use Rattle.vms_history.specs.Common.{LeadsOn};
ghost use Rattle.vms_event_core.specs.declared.steps.EventStep.{EventStep};
ghost use Rattle.vms_event_core.specs.Common.{IsCount, IsEvent, with_word, word_at};
ghost use Rattle.vms_plain_events.specs.PlainWords.{HasWords};
ghost use Rattle.vms_plain_events.specs.StateSteps.{events_by_state};

use crate::words::grow;
use vms_base::{CpuId, EventId};
use vms_event_core::EventState;

/// Counts an event `n` times on a CPU (`count_vm_events` of include/linux/vmstat.h).
#[inline]
pub fn count(events: &mut EventState, cpu: CpuId, event: EventId, n: u64)
    requires cpu { HasWords events.old (cpu.number + 1) }
    requires event { IsEvent event.number }
    requires room { word_at events.old cpu.number event.number + n < 2 ^ 64 }
    ensures grows { events.new ≡ with_word events.old cpu.number event.number
        (word_at events.old cpu.number event.number + n) }
    ensures made { (steps : List EventStep) × IsCount event n steps
        × LeadsOn events_by_state (Some cpu) steps events.old events.new }
{
    grow(events, cpu, event, n);
}
