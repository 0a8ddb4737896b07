ghost use Rattle.std.specs.Prelude.{◌≡◌, None, Some};
ghost use Rattle.vms_core.specs.Own.{CarriesNothing};
ghost use Rattle.vms_burial.specs.Common.{passes_of as control_passes_of};
ghost use Rattle.vms_counters.specs.Handles.{IsBetweenCalls, volumes_in};
ghost use Rattle.vms_counters.specs.Opened.{AreFree, BeginsPasses, EndsPasses, MayBegin};
ghost use Rattle.vms_event.specs.Common.{IsCpuPass};
ghost use Rattle.vms_tables.specs.Common.{AreFrom, mains_of, passes_of};
ghost use Rattle.vms_world.specs.Common.{own};

use vms_base::{CpuId, CpuVolumes};
use vms_burial::ControlPasses;
use vms_tables::{CpuPasses, MainPasses, Tables};

// The passes of a handle in the three tables, which begin together and end together.

/// Begins the passes of a CPU, with the volumes that were kept for it.
pub(crate) fn begin_passes(
    tables: &Tables,
    mains: &mut MainPasses,
    cpu: CpuId,
    volumes: CpuVolumes,
) -> CpuPasses
    requires mains { AreFrom tables.now (mains_of mains.old) }
    requires may { MayBegin tables.now (mains_of mains.old) cpu volumes }
    ensures begun { BeginsPasses (Some cpu) (mains_of mains.new) (mains_of mains.old) (passes_of result) }
    ensures of { AreFrom tables.now (passes_of result) }
    ensures between { IsBetweenCalls tables.now.pages result.page.pass }
    ensures event { IsCpuPass result.event.pass cpu result.event.volume }
    ensures volumes { volumes_in result ≡ volumes }
{
    let CpuVolumes { page, event, pcpu } = volumes;
    CpuPasses {
        page: tables.pages.cpu_pass(&mut mains.page, cpu, page),
        event: tables.events.cpu_pass(&mut mains.event, cpu, event),
        pcpu: tables.counters.cpu_pass(&mut mains.pcpu, cpu, pcpu),
    }
}

/// Ends the passes of a CPU, and gives the CPU's volumes back.
pub(crate) fn end_passes(tables: &Tables, mains: &mut MainPasses, passes: CpuPasses) -> CpuVolumes
    requires mains { AreFrom tables.now (mains_of mains.old) }
    requires passes { AreFrom tables.now (passes_of passes) }
    requires nothing { CarriesNothing tables.now.pages.facts.layout
        (own passes.page.pass.seen passes.page.pass.number) }
    ensures ended { EndsPasses (mains_of mains.new) (mains_of mains.old) (passes_of passes) }
    ensures volumes { result ≡ volumes_in passes }
{
    let CpuPasses { page, event, pcpu } = passes;
    CpuVolumes {
        page: tables.pages.join_cpu(&mut mains.page, page),
        event: tables.events.join_cpu(&mut mains.event, event),
        pcpu: tables.counters.join_cpu(&mut mains.pcpu, pcpu),
    }
}

/// Begins the control passes.
pub(crate) fn begin_control_passes(tables: &Tables, mains: &mut MainPasses) -> ControlPasses
    requires mains { AreFrom tables.now (mains_of mains.old) }
    requires free { AreFree (mains_of mains.old) None }
    ensures { BeginsPasses None (mains_of mains.new) (mains_of mains.old) (control_passes_of result) }
{
    ControlPasses {
        page: tables.pages.control_pass(&mut mains.page),
        event: tables.events.control_pass(&mut mains.event),
        pcpu: tables.counters.control_pass(&mut mains.pcpu),
    }
}

/// Ends the control passes.
pub(crate) fn end_control_passes(tables: &Tables, mains: &mut MainPasses, passes: ControlPasses)
    requires mains { AreFrom tables.now (mains_of mains.old) }
    requires passes { AreFrom tables.now (control_passes_of passes) }
    requires nothing { CarriesNothing tables.now.pages.facts.layout (own passes.page.seen passes.page.number) }
    ensures { EndsPasses (mains_of mains.new) (mains_of mains.old) (control_passes_of passes) }
{
    let ControlPasses { page, event, pcpu } = passes;
    tables.pages.join_control(&mut mains.page, page);
    tables.events.join_control(&mut mains.event, event);
    tables.counters.join_control(&mut mains.pcpu, pcpu);
}
