ghost use Rattle.std.specs.Prelude.{◌≡◌, ◌≢◌, ℕ, ◌+◌, ◌<◌, ◌≤◌, ◌^◌, List, None, length};
ghost use Rattle.vms_history.specs.Common.{Online, state_at, LeadsOn};
ghost use Rattle.vms_event_core.specs.declared.steps.EventStep.{EventStep};
ghost use Rattle.vms_event_core.specs.Common.{IsFoldEvents, IsEvent, word_at};
ghost use Rattle.vms_plain_events.specs.PlainWords.{HasWords, MovesWords, with_moved};
ghost use Rattle.vms_plain_events.specs.StateSteps.{events_by_state};

use crate::summing::is_online;
use crate::words::{EVENTS, grow, set_word, word};
use vms_base::{CpuId, CpuState, EventId};
use vms_event_core::EventState;

/// Moves what a dead CPU has counted into the words of another (`vm_events_fold_cpu` of mm/vmstat.c).
pub fn fold_events(events: &mut EventState, from: CpuId, into: CpuId)
    requires from { HasWords events.old (from.number + 1) }
    requires into { HasWords events.old (into.number + 1) }
    requires other { from.number ≢ into.number }
    requires room { (k : ℕ) → IsEvent k →
        word_at events.old into.number k + word_at events.old from.number k < 2 ^ 64 }
    ensures moved { MovesWords from.number into.number events.old events.new }
    ensures made { (found : List ℕ) × (steps : List EventStep) × IsFoldEvents from into found steps
        × LeadsOn events_by_state None steps events.old events.new }
{
    for number in 0..EVENTS {
        move_word(events, from, into, EventId { number });
    }
}

fn move_word(events: &mut EventState, from: CpuId, into: CpuId, event: EventId)
    requires from { HasWords events.old (from.number + 1) }
    requires into { HasWords events.old (into.number + 1) }
    requires other { from.number ≢ into.number }
    requires event { IsEvent event.number }
    requires room { word_at events.old into.number event.number + word_at events.old from.number event.number < 2 ^ 64 }
    ensures { events.new ≡ with_moved from.number into.number event.number events.old }
{
    let found = word(events, from, event);
    set_word(events, from, event, 0);
    grow(events, into, event, found);
}

/// The lowest-numbered CPU that is online by these states.
pub(crate) fn lowest_online(states: &[CpuState]) -> CpuId
    requires some { (c : ℕ) × (c < length states.now) × (state_at states.now c ≡ Online) }
    requires few { length states.now ≤ 128 }
    ensures within { result.number < length states.now }
    ensures online { state_at states.now result.number ≡ Online }
    ensures lowest { (b : ℕ) → b < result.number → state_at states.now b ≢ Online }
{
    for number in 0..states.len() as u32 {
        if is_online(states[number as usize]) {
            return CpuId { number };
        }
    }
    CpuId { number: 0 }
}
