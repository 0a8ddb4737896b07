ghost use Rattle.std.specs.Prelude.{◌≡◌};

use crate::PlainTables;
use vms_core::Plain;
use vms_event_core::EventState;
use vms_pcpu_core::PcpuState;

impl PlainTables {
    /// The counters of the three tables.
    pub fn into_parts(self) -> (Plain, EventState, PcpuState)
        ensures { result ≡ (self.pages, self.events, self.counters) }
    {
        let PlainTables {
            pages,
            events,
            counters,
            ..
        } = self;
        (pages, events, counters)
    }
}
