use std::alloc::Global;
use vms_base::{Header, Memory};
use vms_event::{EventMain, EventTable};
use vms_pcpu::{PcpuMain, PcpuTable};
use vms_words::{MainPass, PageTable};
use vms_world::World;

/// The tables of a phase. Contracts see in each which words it is and the facts that its history begins with.
#[derive(Drop)]
pub struct Tables {
    pub pages: PageTable,
    pub events: EventTable,
    pub counters: PcpuTable,
}

/// The main passes of the three tables, which begin and end the others.
#[derive(Drop)]
pub struct MainPasses {
    pub page: MainPass,
    pub event: EventMain,
    pub pcpu: PcpuMain,
}

impl Tables {
    ghost use Rattle.std.specs.Prelude.{IfOk};
    ghost use Rattle.vms_tables.specs.Tables.{AreMadeFrom, AreTables};
    ghost use Rattle.vms_tables.specs.Passes.{AreFrom, HaveSeenNothing, mains_of};
    ghost use Rattle.vms_world.specs.Common.{IsWorldOf};

    /// The tables of a phase from this world, and their main passes. All memory of the phase's counters is taken here.
    pub fn make(
        alloc: Global,
        header: &Header,
        world: &World,
    ) -> Result<(Tables, MainPasses), Memory>
        requires { IsWorldOf header.now world.now }
        ensures tables { IfOk result (λ made. AreTables header.now made.0) }
        ensures world { IfOk result (λ made. AreMadeFrom world.now made.0) }
        ensures mains { IfOk result
            (λ made. AreFrom made.0 (mains_of made.1) × HaveSeenNothing (mains_of made.1)) }
    {
        let cpus = world.pages.cpu.as_slice();
        let (pages, page) = PageTable::make(alloc, header, &world.pages)?;
        let (events, event) = EventTable::make(alloc, &header.layout, &world.events, cpus)?;
        let (counters, pcpu) = PcpuTable::make(alloc, &header.layout, &world.counters, cpus)?;
        Ok((
            Tables {
                pages,
                events,
                counters,
            },
            MainPasses { page, event, pcpu },
        ))
    }
}
