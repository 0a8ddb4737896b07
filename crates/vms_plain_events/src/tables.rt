ghost use Rattle.vms_event_core.specs.declared.states.EventState.{EventState};
ghost use Rattle.vms_event_core.specs.Common.{Tells, events};
ghost use Rattle.vms_plain_events.specs.StateSteps.{events_by_state, IsByState-events};

use vms_event_core::{EventFacts, EventStep};
use vms_history::StateTable;

/// The table of event counters, whose steps go by the words alone.
#[derive(Debug, Drop)]
pub struct PlainEvents;

impl StateTable for PlainEvents {
    type Facts = EventFacts;

    type Step = EventStep;

    ghost State = { EventState };

    ghost machine = { events };

    ghost Tells = { Tells };

    ghost by_state = { events_by_state };

    ghost is_by_state = { IsByState-events };
}
