ghost use Rattle.std.specs.Prelude.{◌≡◌, ◌<◌, MatchResult};
ghost use Rattle.vms_counters.specs.EventCalls.{Counts, RefusesCount, RefusesSum, SumsEvent};
ghost use Rattle.vms_counters.specs.Handles.{OnEvents, event_handle};
ghost use Rattle.vms_seats.specs.Common.{IsFrom};

use crate::control_handles::ControlHandle;
use crate::counters::EVENTS;
use crate::errors::CallError;
use crate::handles::Handle;
use crate::shared::SharedCounters;
use vms_base::EventId;
use vms_event::EventCaller;
use vms_event_core::{counts_alone_spend, online_words_grow};

// The calls of handles on the event counters.

impl Handle {
    /// Counts an event a number of times on the handle's CPU (`count_vm_events` of include/linux/vmstat.h).
    pub fn count_event(&mut self, event: EventId, times: u64) -> Result<(), CallError>
        ensures made { MatchResult result (λ _. Counts self.new.event self.old.event event times)
            (RefusesCount self.new.event self.old.event event times) }
        ensures rest { OnEvents self.new self.old }
    {
        if event.number as usize >= EVENTS {
            return Err(CallError::NoEvent(event.number));
        }
        counts_alone_spend();
        let table = &self.shared.tables.events;
        match table.count(&mut self.passes.event, event, times) {
            Ok(()) => Ok(()),
            Err(overflow) => Err(CallError::TooMuch(overflow)),
        }
    }

    /// How often the CPUs that are online have counted an event (`all_vm_events` of mm/vmstat.c): at least as often as
    /// when the call began, and at most as often as when it ended.
    pub fn events(&mut self, event: EventId) -> Result<u64, CallError>
        ensures made { MatchResult result (SumsEvent self.new.event self.old.event event)
            (RefusesSum self.new.event self.old.event event) }
        ensures rest { OnEvents self.new self.old }
    {
        counts_alone_spend();
        sum_up(&self.shared, &mut self.passes.event, event)
    }
}

impl ControlHandle {
    /// How often the CPUs that are online have counted an event (`all_vm_events` of mm/vmstat.c): at least as often as
    /// when the call began, and at most as often as when it ended.
    pub fn events(&mut self, event: EventId) -> Result<u64, CallError>
        ensures made { MatchResult result (SumsEvent self.new.event self.old.event event)
            (RefusesSum self.new.event self.old.event event) }
        ensures rest { OnEvents self.new self.old }
    {
        sum_up(&self.shared, &mut self.passes.event, event)
    }
}

/// Sums up an event over the CPUs that are online.
fn sum_up<P: EventCaller>(
    shared: &SharedCounters,
    pass: &mut P,
    event: EventId,
) -> Result<u64, CallError>
    requires { IsFrom (P.pass pass.old) shared.now.tables.events }
    ensures made { MatchResult result
        (SumsEvent (event_handle (P.pass pass.new) (P.volume pass.new))
        (event_handle (P.pass pass.old) (P.volume pass.old)) event)
        (RefusesSum (event_handle (P.pass pass.new) (P.volume pass.new))
        (event_handle (P.pass pass.old) (P.volume pass.old)) event) }
    ensures of { IsFrom (P.pass pass.new) shared.now.tables.events }
{
    if event.number as usize >= EVENTS {
        return Err(CallError::NoEvent(event.number));
    }
    online_words_grow();
    Ok(shared.tables.events.all_events(pass, event))
}
