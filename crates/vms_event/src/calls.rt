ghost use Rattle.std.specs.Prelude.{◌≡◌, List};
ghost use Rattle.vms_event_core.specs.declared.steps.EventStep.{EventStep};
ghost use Rattle.vms_event_core.specs.Common.{IsEventCall, IsCpuCall, events};
ghost use Rattle.vms_event.specs.CpuPasses.{HasRoomFor, volume_after};
ghost use Rattle.vms_seats.specs.Common.{IsFrom, Made};

use crate::passes::EventPass;
use crate::tables::EventTable;
use vms_event_core::{EventAnswer, EventCall};

impl EventTable {
    /// Makes a call of a pass that owns a CPU, and returns its answer.
    #[inline]
    pub fn call(&self, pass: &mut EventPass, call: EventCall) -> EventAnswer
        requires table { IsFrom pass.old.pass self.now }
        requires call { IsCpuCall call }
        requires room { HasRoomFor call pass.old.volume }
        ensures made { (steps : List EventStep) × IsEventCall self.now.facts call steps result
            × Made events pass.new.pass pass.old.pass steps }
        ensures volume { pass.new.volume ≡ volume_after call pass.old.volume }
    {
        match call {
            EventCall::Count(event, n) => {
                pass.add(self, event, n);
                EventAnswer::Done
            }
            EventCall::Sum(event) => EventAnswer::Total(self.all_events(pass, event)),
            EventCall::FoldDead(_) => EventAnswer::Done,
        }
    }
}
