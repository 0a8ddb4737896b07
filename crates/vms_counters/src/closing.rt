ghost use Rattle.std.specs.Prelude.{◌≡◌, ℕ, false, length};
ghost use Rattle.vms_core.specs.Cells.{HasShape};
ghost use Rattle.vms_core.specs.Pages.{state_after};
ghost use Rattle.vms_core.specs.Steps as page_steps;
ghost use Rattle.vms_event_core.specs.Events as event_histories;
ghost use Rattle.vms_event_core.specs.Steps as event_steps;
ghost use Rattle.vms_history.specs.Legal.{IsComplete};
ghost use Rattle.vms_pcpu_core.specs.Steps as pcpu_steps;
ghost use Rattle.vms_tables.specs.Common.{AreFrom, mains_of};
ghost use Rattle.vms_world.specs.Common.{events, lives_in, numbers_after, pages, percpu, settled};

use vms_core::State;
use vms_event::EventHistory;
use vms_event_core::EventState;
use vms_pcpu::PcpuHistory;
use vms_pcpu_core::PcpuState;
use vms_tables::{MainPasses, Tables};
use vms_words::PhaseHistory;
use vms_world::World;

/// What is left of counters that were closed: how each table stands, with nothing acknowledged and nothing set, and the
/// history of all steps in it, which stores none of them.
#[derive(Drop)]
pub struct Closed {
    pub pages: State,
    pub events: EventState,
    pub counters: PcpuState,
    pub page_history: PhaseHistory,
    pub event_history: EventHistory,
    pub pcpu_history: PcpuHistory,
}

/// Closes the tables, once every pass has ended.
pub(crate) fn close_tables(tables: Tables, mains: MainPasses, last: World) -> Closed
    requires mains { AreFrom tables (mains_of mains) }
    requires pages_ended { (q : ℕ) → lives_in page_steps.role mains.page.seen q ≡ false }
    requires events_ended { (q : ℕ) → lives_in event_steps.role mains.event.seen q ≡ false }
    requires counters_ended { (q : ℕ) → lives_in pcpu_steps.role mains.pcpu.seen q ≡ false }
    requires shaped { HasShape tables.pages.facts.layout last.pages }
    requires words { length last.events.words ≡ length tables.events.facts.base.words }
    ensures page_history { result.page_history ≡ record { facts = tables.pages.facts; events = mains.page.seen } }
    ensures event_history { result.event_history ≡ record { facts = tables.events.facts; events = mains.event.seen } }
    ensures pcpu_history { result.pcpu_history ≡ record { facts = tables.counters.facts; events = mains.pcpu.seen } }
    ensures pages_complete { IsComplete pages result.page_history.facts result.page_history.events }
    ensures events_complete { IsComplete events result.event_history.facts result.event_history.events }
    ensures counters_complete { IsComplete percpu result.pcpu_history.facts result.pcpu_history.events }
    ensures pages { result.pages ≡ settled (state_after tables.pages.facts mains.page.seen) }
    ensures events { result.events ≡ event_histories.state_after tables.events.facts mains.event.seen }
    ensures counters { result.counters ≡ numbers_after tables.counters.facts mains.pcpu.seen }
{
    let World {
        mut pages,
        mut events,
        mut counters,
        volumes: _,
    } = last;
    let MainPasses { page, event, pcpu } = mains;
    let page_history = tables.pages.close(page, &mut pages);
    let event_history = tables.events.close(event, &mut events);
    let pcpu_history = tables.counters.close(pcpu, &mut counters);
    page_history.is_complete();
    event_history.is_complete();
    pcpu_history.is_complete();
    Closed {
        pages,
        events,
        counters,
        page_history,
        event_history,
        pcpu_history,
    }
}
