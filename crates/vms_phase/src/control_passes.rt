ghost use Rattle.std.specs.Prelude.{◌≡◌, false, List, None};
ghost use Rattle.vms_burial.specs.Common.{passes_of};
ghost use Rattle.vms_core.specs.Own.{CarriesNothing};
ghost use Rattle.vms_file_order.specs.Common.{StandOnce};
ghost use Rattle.vms_world.specs.Common.{own, Lane, Control, is_among};
ghost use Rattle.vms_phase.specs.LanePasses.{BeginPasses, EndPasses, HaveBegun};
ghost use Rattle.vms_tables.specs.Common.{AreFrom, mains_of};

use vms_burial::ControlPasses;
use vms_tables::{MainPasses, Tables};

/// Begins the passes of the control lane, where it has none yet.
pub fn begin_control(tables: &Tables, mains: &mut MainPasses) -> ControlPasses
    requires mains { AreFrom tables.now (mains_of mains.old) }
    requires apart { (lanes : List Lane) × HaveBegun lanes (mains_of mains.old) × StandOnce lanes
        × (is_among Control lanes ≡ false) }
    ensures begun { BeginPasses None (mains_of mains.new) (mains_of mains.old) (passes_of result) }
    ensures of { AreFrom tables.now (passes_of result) }
    ensures nothing { CarriesNothing tables.now.pages.facts.layout (own result.page.seen result.page.number) }
{
    ControlPasses {
        page: tables.pages.control_pass(&mut mains.page),
        event: tables.events.control_pass(&mut mains.event),
        pcpu: tables.counters.control_pass(&mut mains.pcpu),
    }
}

/// Ends the passes of the control lane.
pub fn join_control(tables: &Tables, mains: &mut MainPasses, passes: ControlPasses)
    requires mains { AreFrom tables.now (mains_of mains.old) }
    requires passes { AreFrom tables.now (passes_of passes) }
    requires nothing { CarriesNothing tables.now.pages.facts.layout (own passes.page.seen passes.page.number) }
    ensures { EndPasses (mains_of mains.new) (mains_of mains.old) (passes_of passes) }
{
    let ControlPasses { page, event, pcpu } = passes;
    tables.pages.join_control(&mut mains.page, page);
    tables.events.join_control(&mut mains.event, event);
    tables.counters.join_control(&mut mains.pcpu, pcpu);
}
