ghost use Rattle.std.specs.Prelude.{◌≡◌, ◌+◌, ◌<◌, ◌≤◌, ◌↔◌, [], ◌∷◌, slice_index, slice_set, IsErr, OnOk, OnErr};
ghost use Rattle.std.specs.Prelude.{IfErr};
ghost use Rattle.vms_history.specs.Common.{most_volume};
ghost use Rattle.vms_event_core.specs.declared.steps.EventStep.TheVariants.{AddE};
ghost use Rattle.vms_event_core.specs.Common.{events, IsEvent};
ghost use Rattle.vms_seats.specs.Common.{IsFrom, Made};

use crate::passes::EventPass;
use crate::places::place;
use crate::tables::EventTable;
use vms_base::{EventId, Overflow};
use vms_event_core::EventStep;
use vms_seats::Works;

/// What one CPU may count of an event over a run.
const MOST_VOLUME: u64 = 1 << 48;

impl EventTable {
    /// Counts an event `n` times on the pass's CPU (`count_vm_events` of include/linux/vmstat.h).
    pub fn count(&self, pass: &mut EventPass, event: EventId, n: u64) -> Result<(), Overflow>
        requires table { IsFrom pass.old.pass self.now }
        requires event { IsEvent event.number }
        ensures made { OnOk result (Made events pass.new.pass pass.old.pass (AddE event n ∷ [])) }
        ensures volume { OnOk result (pass.new.volume ≡ slice_set pass.old.volume event.number
            (slice_index pass.old.volume event.number + n)) }
        ensures overflow { IsErr result ↔ (most_volume < slice_index pass.old.volume event.number + n) }
        ensures told { IfErr result (λ e.
            e ≡ record { volume = slice_index pass.old.volume event.number; size = n }) }
        ensures err { OnErr result (pass.new ≡ pass.old) }
    {
        let volume = pass.volume_of(event);
        if n > MOST_VOLUME || volume > MOST_VOLUME - n {
            return Err(Overflow { volume, size: n });
        }
        pass.add(self, event, n);
        Ok(())
    }
}

impl EventPass {
    /// What the pass's CPU has counted of an event since the run began.
    #[inline]
    pub fn volume_of(&self, event: EventId) -> u64
        requires { IsEvent event.number }
        ensures { result ≡ slice_index self.now.volume event.number }
    {
        self.volume.get(event.number as usize)
    }

    #[inline]
    pub(crate) fn add(&mut self, table: &EventTable, event: EventId, n: u64)
        requires table { IsFrom self.old.pass table.now }
        requires event { IsEvent event.number }
        requires room { slice_index self.old.volume event.number + n ≤ most_volume }
        ensures made { Made events self.new.pass self.old.pass (AddE event n ∷ []) }
        ensures volume { self.new.volume ≡ slice_set self.old.volume event.number
            (slice_index self.old.volume event.number + n) }
    {
        let at = event.number as usize;
        let sum = self.volume.get(at) + n;
        self.worker.add_at(
            &table.words,
            place(self.cpu, event),
            n,
            &EventStep::AddE(event, n),
        );
        self.volume.set(at, sum);
    }
}
