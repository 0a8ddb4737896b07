ghost use Rattle.std.specs.Prelude.{◌≡◌, ℕ, ◌<◌, ◌≤◌, ◌^◌, List, length, Option};
ghost use Rattle.vms_history.specs.Common.{LeadsOn, CpuId, online_from, is_online as tells_online};
ghost use Rattle.vms_event_core.specs.declared.steps.EventStep.{EventStep};
ghost use Rattle.vms_event_core.specs.Common.{IsAllEvents, sum_over, IsEvent};
ghost use Rattle.vms_plain_events.specs.PlainWords.{HasWords};
ghost use Rattle.vms_plain_events.specs.StateSteps.{events_by_state};

use crate::words::word;
use vms_base::{CpuId, CpuState, EventId};
use vms_event_core::EventState;

/// What the CPUs that are online have counted of an event (`all_vm_events` of mm/vmstat.c). `states` has the state of
/// each CPU.
pub fn all_events(events: &EventState, states: &[CpuState], event: EventId) -> u64
    requires cpus { HasWords events.now (length states.now) }
    requires few { length states.now ≤ 128 }
    requires event { IsEvent event.number }
    requires room { sum_over events.now event.number (online_from 0 states.now) < 2 ^ 64 }
    ensures sum { result ≡ sum_over events.now event.number (online_from 0 states.now) }
    ensures made { (who : Option CpuId) → (found : List ℕ) × (steps : List EventStep)
        × IsAllEvents (online_from 0 states.now) event found steps result
        × LeadsOn events_by_state who steps events.now events.now }
{
    let mut sum = 0;
    for (number, state) in states.iter().enumerate() {
        let cpu = CpuId {
            number: number as u32,
        };
        if is_online(*state) {
            sum += word(events, cpu, event);
        }
    }
    sum
}

#[inline]
pub(crate) fn is_online(state: CpuState) -> bool
    ensures { result ≡ tells_online state }
{
    match state {
        CpuState::Online => true,
        CpuState::Dead | CpuState::Absent => false,
    }
}
