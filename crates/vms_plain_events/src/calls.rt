ghost use Rattle.std.specs.Prelude.{◌≡◌, List};
ghost use Rattle.vms_history.specs.Common.{LeadsOn};
ghost use Rattle.vms_event_core.specs.declared.steps.EventFacts.{EventFacts};
ghost use Rattle.vms_event_core.specs.declared.steps.EventStep.{EventStep};
ghost use Rattle.vms_event_core.specs.Common.{IsCount, IsEventCall};
ghost use Rattle.vms_plain_events.specs.PlainCalls.{Counts, FitsCall, FitsCount, MakesCall};
ghost use Rattle.vms_plain_events.specs.StateSteps.{events_by_state};

use crate::counting::count;
use crate::folding::{fold_events, lowest_online};
use crate::summing::all_events;
use vms_base::{CpuId, CpuState, EventId};
use vms_event_core::{EventAnswer, EventCall, EventState};

/// Makes a call of a caller that owns a CPU, or none, and returns its answer. `states` has the state of each CPU.
#[inline]
pub fn call(
    events: &mut EventState,
    states: &[CpuState],
    owner: Option<CpuId>,
    call: EventCall,
) -> EventAnswer
    requires fits { FitsCall states.now owner call events.old }
    ensures makes { MakesCall states.now owner call events.old events.new result }
    ensures made { (facts : EventFacts) → facts.cpus ≡ states.now → (steps : List EventStep)
        × IsEventCall facts call steps result × LeadsOn events_by_state owner steps events.old events.new }
{
    match call {
        EventCall::Count(event, n) => {
            count_own(events, owner, event, n);
            EventAnswer::Done
        }
        EventCall::Sum(event) => EventAnswer::Total(all_events(events, states, event)),
        EventCall::FoldDead(dead) => {
            fold_events(events, dead, lowest_online(states));
            EventAnswer::Done
        }
    }
}

/// Counts an event on the CPU that the caller owns.
#[inline]
fn count_own(events: &mut EventState, owner: Option<CpuId>, event: EventId, n: u64)
    requires { FitsCount owner event n events.old }
    ensures makes { Counts owner event n events.old events.new }
    ensures made { (steps : List EventStep) × IsCount event n steps
        × LeadsOn events_by_state owner steps events.old events.new }
{
    match owner {
        Some(cpu) => count(events, cpu, event, n),
        None => {}
    }
}
