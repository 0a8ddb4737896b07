ghost use Rattle.std.specs.Prelude.{◌≡◌, ℕ, ◌+◌, ◌*◌, ◌<◌, ◌≤◌, List, length, slice_index_or, IfOk, Some};
ghost use Rattle.vms_core.specs.Own.{CarriesNothing};
ghost use Rattle.vms_world.specs.Common.{own, Lane, Cpu, IsWorldOf, volume_in};
ghost use Rattle.vms_lane.specs.Common.{AreReady};
ghost use Rattle.vms_phase.specs.LanePasses.{BeginPasses, EndPasses, HaveVolumesOf, MayBeginLane};
ghost use Rattle.vms_tables.specs.Common.{AreFrom, mains_of, passes_of, AreMadeFrom, AreTables};

use std::alloc::Global;
use vms_base::{CpuId, CpuVolumes, Header, Memory, Row, Volume};
use vms_tables::{CpuPasses, MainPasses, Tables};
use vms_world::World;

/// How many events are counted.
const EVENTS: usize = 8;

/// Begins the passes of a CPU's lane, with the volumes that the CPU has in the world of the tables. Where no memory is
/// found none was begun.
pub fn begin_cpu(
    alloc: Global,
    header: &Header,
    tables: &Tables,
    mains: &mut MainPasses,
    world: &World,
    cpu: CpuId,
) -> Result<CpuPasses, Memory>
    requires world { IsWorldOf header.now world.now }
    requires tables { AreTables header.now tables.now }
    requires made { AreMadeFrom world.now tables.now }
    requires may { (lanes : List Lane) × MayBeginLane header.now tables.now lanes (Cpu cpu) (mains_of mains.old) }
    ensures begun { IfOk result (λ passes. BeginPasses (Some cpu) (mains_of mains.new) (mains_of mains.old)
        (passes_of passes)) }
    ensures ready { IfOk result (λ passes. AreReady tables.now cpu passes) }
    ensures volumes { IfOk result (λ passes. HaveVolumesOf header.now world.now cpu.number passes) }
{
    let pages = volume_of(
        alloc,
        &world.volumes.pages,
        header.layout.counters() as usize,
        cpu,
    )?;
    let events = volume_of(alloc, &world.volumes.events, EVENTS, cpu)?;
    let counters = volume_of(alloc, &world.volumes.counters, header.counters.len(), cpu)?;
    Ok(CpuPasses {
        page: tables.pages.cpu_pass(&mut mains.page, cpu, pages),
        event: tables.events.cpu_pass(&mut mains.event, cpu, events),
        pcpu: tables.counters.cpu_pass(&mut mains.pcpu, cpu, counters),
    })
}

/// Ends the passes of a CPU's lane, and gives the CPU's volumes back.
pub fn join_cpu(tables: &Tables, mains: &mut MainPasses, passes: CpuPasses) -> CpuVolumes
    requires mains { AreFrom tables.now (mains_of mains.old) }
    requires passes { AreFrom tables.now (passes_of passes) }
    requires nothing { CarriesNothing tables.now.pages.facts.layout
        (own passes.page.pass.seen passes.page.pass.number) }
    ensures ended { EndPasses (mains_of mains.new) (mains_of mains.old) (passes_of passes) }
    ensures page { result.page ≡ passes.page.volume }
    ensures event { result.event ≡ passes.event.volume }
    ensures pcpu { result.pcpu ≡ passes.pcpu.volume }
{
    let CpuPasses { page, event, pcpu } = passes;
    CpuVolumes {
        page: tables.pages.join_cpu(&mut mains.page, page),
        event: tables.events.join_cpu(&mut mains.event, event),
        pcpu: tables.counters.join_cpu(&mut mains.pcpu, pcpu),
    }
}

/// The volumes of a CPU among those of all CPUs, where each has one for each of `width` things.
fn volume_of(alloc: Global, volumes: &Row<u64>, width: usize, cpu: CpuId) -> Result<Volume, Memory>
    requires { cpu.number * width + width ≤ length volumes.now }
    ensures each { IfOk result (λ volume. length volume ≡ width) }
    ensures same { IfOk result (λ volume. (k : ℕ) → k < width →
        slice_index_or volume k 0 ≡ volume_in volumes.now width cpu.number k) }
{
    let _ = volumes.len();
    let start = cpu.number as usize * width;
    Row::from_slice(alloc, &volumes.as_slice()[start..start + width])
}
