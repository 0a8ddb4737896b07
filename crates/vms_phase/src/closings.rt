ghost use Rattle.std.specs.Prelude.{◌≡◌, length};
ghost use Rattle.vms_world.specs.Common.{settled, numbers_after, Header, event_facts, page_facts, pcpu_facts};
ghost use Rattle.vms_core.specs.Cells.{HasShape};
ghost use Rattle.vms_core.specs.Pages as page_histories;
ghost use Rattle.vms_event_core.specs.Events as event_histories;
ghost use Rattle.vms_pcpu_core.specs.Endings as pcpu_endings;
ghost use Rattle.vms_phase.specs.EndedTables.{HaveAllEnded};
ghost use Rattle.vms_tables.specs.declared.tables.Tables.{Tables as TablesOf};
ghost use Rattle.vms_tables.specs.Common.{AreFrom, mains_of, AreMadeFrom, AreTables};
ghost use Rattle.vms_world.specs.declared.worlds.World.{World as WorldOf};

use vms_event::EventHistory;
use vms_pcpu::PcpuHistory;
use vms_tables::{MainPasses, Tables};
use vms_words::PhaseHistory;
use vms_world::World;

/// The histories of a phase in the three tables. They store no event. None is made but by closing a table: each has a
/// private field, the `witness` of a `vms_seats::History`, which no other crate can fill. That rests on the field's
/// being private, and on no clause.
#[derive(Drop)]
pub struct ClosedHistories {
    pub pages: PhaseHistory,
    pub events: EventHistory,
    pub counters: PcpuHistory,
}

/// Closes the tables, once every other pass has ended, and writes into a world how they stand then: with nothing
/// acknowledged and nothing set. The volumes of the world stay. The histories are what the main passes have seen.
pub fn close(tables: Tables, mains: MainPasses, world: &mut World) -> ClosedHistories
    requires mains { AreFrom tables (mains_of mains) }
    requires ended { HaveAllEnded (mains_of mains) }
    requires shaped { HasShape tables.pages.facts.layout world.old.pages }
    requires words { length world.old.events.words ≡ length tables.events.facts.base.words }
    ensures page_history { result.pages ≡ record { facts = tables.pages.facts; events = mains.page.seen } }
    ensures event_history { result.events ≡ record { facts = tables.events.facts; events = mains.event.seen } }
    ensures pcpu_history { result.counters ≡ record { facts = tables.counters.facts; events = mains.pcpu.seen } }
    ensures pages { world.new.pages
        ≡ settled (page_histories.state_after tables.pages.facts mains.page.seen) }
    ensures events { world.new.events ≡ event_histories.state_after tables.events.facts mains.event.seen }
    ensures counters { world.new.counters ≡ numbers_after tables.counters.facts mains.pcpu.seen }
    ensures volumes { world.new.volumes ≡ world.old.volumes }
{
    let Tables {
        pages,
        events,
        counters,
    } = tables;
    let MainPasses { page, event, pcpu } = mains;
    ClosedHistories {
        pages: pages.close(page, &mut world.pages),
        events: events.close(event, &mut world.events),
        counters: counters.close(pcpu, &mut world.counters),
    }
}

impl ClosedHistories {
    /// What holds of such histories: each is legal, and every pass in it has ended.
    pub fn are_complete(&self)
        ensures pages { page_histories.IsComplete self.now.pages.facts self.now.pages.events }
        ensures events { event_histories.IsComplete self.now.events.facts self.now.events.events }
        ensures counters { pcpu_endings.IsComplete self.now.counters.facts self.now.counters.events }
    {
        self.pages.is_complete();
        self.events.is_complete();
        self.counters.is_complete();
    }
}

/// Tables that were made from a world were told what a phase from it is told.
pub fn tables_are_told()
    ensures pages { (header : Header) (tables : TablesOf) (w : WorldOf) → AreTables header tables →
        AreMadeFrom w tables → tables.pages.facts ≡ page_facts header w }
    ensures events { (header : Header) (tables : TablesOf) (w : WorldOf) → AreTables header tables →
        AreMadeFrom w tables → tables.events.facts ≡ event_facts header w }
    ensures counters { (header : Header) (tables : TablesOf) (w : WorldOf) → AreTables header tables →
        AreMadeFrom w tables → tables.counters.facts ≡ pcpu_facts header w }
{}
