ghost use Rattle.std.specs.Prelude.{◌≡◌};
ghost use Rattle.vms_event_core.specs.Common.{event_count};
ghost use Rattle.vms_event.specs.SharedWords.{event_place};
ghost use Rattle.vms_rows.specs.Rows as rows;

use vms_base::{CpuId, EventId};
use vms_rows::row_width;

/// How many events are counted.
pub(crate) const EVENTS: u32 = 8;

/// How many words stand from the first word of a CPU to that of the next one.
#[inline]
pub(crate) fn width() -> usize
    ensures { result ≡ rows.row_width event_count }
{
    row_width(EVENTS as usize)
}

/// Where the word of a CPU for an event stands.
#[inline]
pub(crate) fn place(cpu: CpuId, event: EventId) -> usize
    ensures { result ≡ event_place cpu.number event.number }
{
    cpu.number as usize * width() + event.number as usize
}
