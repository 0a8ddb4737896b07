ghost use Rattle.vms_event_core.specs.declared.states.EventState.{EventState};
ghost use Rattle.vms_event_core.specs.Events.{events};
ghost use Rattle.vms_event_core.specs.Quiet.{quiet_events};

use crate::{EventFacts, EventStep};
use vms_history::Table;

/// The table of event counters, for the laws that hold of every table.
#[derive(Debug, Drop)]
pub struct Events;

impl Table for Events {
    type Facts = EventFacts;

    type Step = EventStep;

    ghost State = { EventState };

    ghost machine = { events };

    ghost quiet = { quiet_events };
}
