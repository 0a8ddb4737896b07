ghost use Rattle.std.specs.Prelude.{◌≡◌, ℕ, ◌≤◌, false, [], length, IfOk};
ghost use Rattle.vms_event_core.specs.Common.{HasShape, IsBase, event_count, state_after, role, word_at};
ghost use Rattle.vms_history.specs.Common.{lives_in, IsLayout};
ghost use Rattle.vms_rows.specs.Rows.{rows_of};
ghost use Rattle.vms_seats.specs.Common.{IsFrom};

use crate::places::{EVENTS, width};
use std::alloc::Global;
use std::marker::Model;
use vms_base::{CpuState, Layout, Memory, Row};
use vms_event_core::{EventFacts, EventState, EventStep};
use vms_rows::{Plain, fill_rows, push_row};
use vms_seats::{Closing, History, Ledger, Main, Words};

/// The words of the event counters that threads share, one for each CPU and event.
#[derive(Debug, Drop)]
pub struct SharedEvents;

impl Ledger for SharedEvents {
    ghost use Rattle.vms_event_core.specs.declared.states.EventState.{EventState};
    ghost use Rattle.vms_event_core.specs.declared.steps.EventStep.TheVariants.{Split, Join};
    ghost use Rattle.vms_event_core.specs.Common.{events, quiet_events};
    ghost use Rattle.vms_event.specs.SharedWords.{shown, told, begins_it, ends_it, no_facts};

    type Facts = EventFacts;

    type Step = EventStep;

    ghost State = { EventState };

    ghost machine = { events };

    ghost quiet = { quiet_events };

    ghost shown = { shown };

    ghost told = { told };

    ghost begins = { Split };

    ghost begins_it = { begins_it };

    ghost ends = { Join };

    ghost ends_it = { ends_it };

    ghost blank = { no_facts };
}

/// The main pass of the event counters, which begins and ends the others.
pub type EventMain = Main<SharedEvents>;

/// The history of a phase on the event counters.
pub type EventHistory = History<SharedEvents>;

/// The event counters while threads change them. Contracts see which words they are and the facts that their history
/// begins with: the layout, the state of each CPU and the words at the start.
#[derive(Drop)]
pub struct EventTable {
    pub(crate) layout: Layout,
    pub(crate) cpus: Row<CpuState>,
    pub(crate) words: Words<SharedEvents>,
}

impl Model for EventTable {
    ghost use Rattle.vms_event_core.specs.declared.steps.EventFacts.{EventFacts};
    ghost use Rattle.vms_seats.specs.Common.{Shared};

    ghost Value = { Shared EventFacts };

    ghost use Rattle.vms_event.specs.SharedWords.{AreMadeFor};

    ghost view = { λ t. t.words };

    ghost invariant = { λ t. AreMadeFor t.layout t.cpus t.words };
}

impl EventTable {
    /// The event counters of a layout, whose CPUs are in these states, with these words. All memory of a phase is taken
    /// here.
    pub fn make(
        alloc: Global,
        layout: &Layout,
        base: &EventState,
        cpus: &[CpuState],
    ) -> Result<(EventTable, EventMain), Memory>
        requires { IsBase (record { layout = layout.now; cpus = cpus.now; base = base.now }) }
        ensures table { IfOk result (λ made. made.0.facts
            ≡ record { layout = layout.now; cpus = cpus.now; base = base.now }) }
        ensures main { IfOk result (λ made. IsFrom made.1 made.0 × (made.1.seen ≡ [])) }
    {
        let facts = EventFacts {
            layout: layout.copied(),
            cpus: Row::from_slice(alloc, cpus)?,
            base: EventState {
                words: Row::from_slice(alloc, base.words.as_slice())?,
            },
        };
        let first = opening_words(alloc, layout, base)?;
        let (words, main) = Words::make(alloc, &facts, first.as_slice())?;
        let EventFacts {
            layout,
            cpus,
            base: _,
        } = facts;
        Ok((
            EventTable {
                layout,
                cpus,
                words,
            },
            main,
        ))
    }

    /// The layout.
    #[inline]
    pub fn layout(&self) -> &Layout
        ensures { result.now ≡ self.now.facts.layout }
    {
        &self.layout
    }

    /// Closes the words, once every other pass has ended, and writes what they are then. The history is what the main
    /// pass has seen.
    pub fn close(self, main: EventMain, into: &mut EventState) -> EventHistory
        requires table { IsFrom main self }
        requires ended { (q : ℕ) → lives_in role main.seen q ≡ false }
        requires room { length into.old.words ≡ length self.facts.base.words }
        ensures history { result ≡ record { facts = self.facts; events = main.seen } }
        ensures state { into.new ≡ state_after self.facts main.seen }
    {
        let EventTable {
            layout,
            cpus: _,
            words,
        } = self;
        let closing = words.close(main);
        write_words(&closing, &layout, &mut into.words);
        closing.leave()
    }
}

/// The words that show a base.
fn opening_words(alloc: Global, layout: &Layout, base: &EventState) -> Result<Vec<u64>, Memory>
    requires layout { IsLayout layout.now }
    requires shaped { HasShape layout.now base.now }
    ensures { IfOk result (λ words. words.items ≡ rows_of event_count layout.now.cpus (λ c k. word_at base.now c k)) }
{
    let cpus = layout.cpus() as usize;
    let events = EVENTS as usize;
    let counted = base.words.as_slice();
    let mut words = Vec::with_capacity(alloc, cpus * width())?;
    for cpu in 0..cpus {
        let start = cpu * events;
        push_row(&mut words, &counted[start..start + events])?;
    }
    Ok(words)
}

/// Writes the words as they are at the end.
fn write_words(closing: &Closing<SharedEvents>, layout: &Layout, into: &mut Row<u64>)
    requires layout { IsLayout layout.now }
    requires same { closing.now.facts.layout ≡ layout.now }
    requires shaped { HasShape layout.now (state_after closing.now.facts closing.now.events) }
    requires room { length into.old ≡ length (state_after closing.now.facts closing.now.events).words }
    ensures { into.new ≡ (state_after closing.now.facts closing.now.events).words }
{
    let cpus = layout.cpus() as usize;
    fill_rows::<SharedEvents, u64, Plain>(closing, 0, width(), cpus, into, EVENTS as usize);
}
