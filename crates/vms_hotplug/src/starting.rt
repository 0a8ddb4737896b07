ghost use Rattle.std.specs.Prelude.{◌≡◌, ◌≤◌, ℕ, List, length, map, IfOk};
ghost use Rattle.vms_world.specs.Common.{IsHeader, AreAnswers, bare_pages as bare_pages_of, refreshed, started};
ghost use Rattle.vms_world.specs.Common.{with_nothing_counted, IsWorldOf, State as StateOf};

use crate::refreshing::refresh;
use crate::summing::systems;
use std::alloc::Global;
use vms_base::{CpuState, Decl, Header, Memory, Row};
use vms_calc::{Rule, Rules};
use vms_core::State;
use vms_event_core::EventState;
use vms_pcpu_core::PcpuState;
use vms_world::{Volumes, World};

/// How many events are counted.
const EVENTS: usize = 8;

/// The world that a run begins with: every CPU is online, the counters have their bases, and the percpu counters the
/// batches of the header. The thresholds are what the normal rule answers for all CPUs, and the marks cover them
/// (`refresh_zone_stat_thresholds` of mm/vmstat.c). All else is 0.
pub fn start<N: Rule, P: Rule>(
    alloc: Global,
    header: &Header,
    rules: &Rules<N, P>,
) -> Result<World, Memory>
    requires { IsHeader header.now }
    ensures start { IfOk result (λ w. (zones : List ℕ)
        × AreAnswers header.now (N.answers rules.now.normal) header.now.layout.cpus zones
        × (w ≡ started header.now zones)) }
    ensures world { IfOk result (IsWorldOf header.now) }
{
    rules.tells();
    let pages = start_pages(alloc, header, rules)?;
    world_with(alloc, header, pages)
}

/// The page counters of that world.
pub fn start_pages<N: Rule, P: Rule>(
    alloc: Global,
    header: &Header,
    rules: &Rules<N, P>,
) -> Result<State, Memory>
    requires { IsHeader header.now }
    ensures { IfOk result (λ s. (zones : List ℕ)
        × AreAnswers header.now (N.answers rules.now.normal) header.now.layout.cpus zones
        × (s ≡ refreshed header.now zones (bare_pages_of header.now))) }
{
    let mut pages = bare_pages(alloc, header)?;
    refresh(&mut pages, header, rules);
    Ok(pages)
}

/// The page counters before any threshold is set.
fn bare_pages(alloc: Global, header: &Header) -> Result<State, Memory>
    requires { IsHeader header.now }
    ensures { IfOk result (λ s. s ≡ bare_pages_of header.now) }
{
    let (place, system, diff) = bare_values(alloc, header)?;
    let (threshold, mark, cpu) = bare_settings(alloc, header)?;
    let (acknowledged, threshold_sets, mark_sets) = bare_tallies(alloc, header)?;
    Ok(State {
        place,
        system,
        diff,
        threshold,
        mark,
        cpu,
        acknowledged,
        threshold_sets,
        mark_sets,
    })
}

/// The global values, the system-wide values and the differentials of these.
fn bare_values(alloc: Global, header: &Header) -> Result<(Row<i64>, Row<i64>, Row<i64>), Memory>
    requires { IsHeader header.now }
    ensures { IfOk result (λ made. (made.0 ≡ (bare_pages_of header.now).place)
        × (made.1 ≡ (bare_pages_of header.now).system)
        × (made.2 ≡ (bare_pages_of header.now).diff)) }
{
    let layout = &header.layout;
    let place = Row::from_slice(alloc, header.bases.as_slice())?;
    let system = systems(alloc, header)?;
    let diff = Row::filled(
        alloc,
        layout.cpus() as usize * layout.counters() as usize,
        0,
    )?;
    Ok((place, system, diff))
}

/// The thresholds, the marks and the states of the CPUs of these.
fn bare_settings(
    alloc: Global,
    header: &Header,
) -> Result<(Row<u32>, Row<u64>, Row<CpuState>), Memory>
    requires { IsHeader header.now }
    ensures { IfOk result (λ made. (made.0 ≡ (bare_pages_of header.now).threshold)
        × (made.1 ≡ (bare_pages_of header.now).mark)
        × (made.2 ≡ (bare_pages_of header.now).cpu)) }
{
    let layout = &header.layout;
    let cpus = layout.cpus() as usize;
    let threshold = Row::filled(alloc, cpus * layout.places() as usize, 0)?;
    let mark = Row::filled(alloc, layout.zones().len(), 0)?;
    let cpu = Row::filled(alloc, cpus, CpuState::Online)?;
    Ok((threshold, mark, cpu))
}

/// What was acknowledged, and how often each threshold and each mark was set.
fn bare_tallies(
    alloc: Global,
    header: &Header,
) -> Result<(Row<Option<u32>>, Row<u32>, Row<u32>), Memory>
    requires { IsHeader header.now }
    ensures { IfOk result (λ made. (made.0 ≡ (bare_pages_of header.now).acknowledged)
        × (made.1 ≡ (bare_pages_of header.now).threshold_sets)
        × (made.2 ≡ (bare_pages_of header.now).mark_sets)) }
{
    let layout = &header.layout;
    let cpus = layout.cpus() as usize;
    let zones = layout.zones().len();
    let acknowledged = Row::filled(alloc, cpus * zones, None)?;
    let threshold_sets = Row::filled(alloc, cpus * layout.places() as usize, 0)?;
    let mark_sets = Row::filled(alloc, zones, 0)?;
    Ok((acknowledged, threshold_sets, mark_sets))
}

/// The world of these page counters in which no event, no percpu counter and no volume counts anything.
fn world_with(alloc: Global, header: &Header, pages: State) -> Result<World, Memory>
    requires { length header.now.counters ≤ 16 }
    ensures { IfOk result (λ w. w ≡ with_nothing_counted header.now pages) }
{
    let events = no_events(alloc, header)?;
    let counters = no_counters(alloc, header)?;
    let volumes = no_volumes(alloc, header)?;
    Ok(World {
        pages,
        events,
        counters,
        volumes,
    })
}

/// The events of that world.
fn no_events(alloc: Global, header: &Header) -> Result<EventState, Memory>
    ensures { IfOk result (λ events. (pages : StateOf) → events ≡ (with_nothing_counted header.now pages).events) }
{
    let words = Row::filled(alloc, header.layout.cpus() as usize * EVENTS, 0)?;
    Ok(EventState { words })
}

/// The percpu counters of that world.
fn no_counters(alloc: Global, header: &Header) -> Result<PcpuState, Memory>
    requires { length header.now.counters ≤ 16 }
    ensures { IfOk result (λ counters. (pages : StateOf) →
        counters ≡ (with_nothing_counted header.now pages).counters) }
{
    let counters = header.counters.len();
    let batch = batches(alloc, header.counters.as_slice())?;
    let count = Row::filled(alloc, counters, 0)?;
    let local = Row::filled(alloc, header.layout.cpus() as usize * counters, 0)?;
    Ok(PcpuState {
        batch,
        count,
        local,
    })
}

/// The volumes of that world.
fn no_volumes(alloc: Global, header: &Header) -> Result<Volumes, Memory>
    requires { length header.now.counters ≤ 16 }
    ensures { IfOk result (λ volumes. (pages : StateOf) → volumes ≡ (with_nothing_counted header.now pages).volumes) }
{
    let cpus = header.layout.cpus() as usize;
    let pages = Row::filled(alloc, cpus * header.layout.counters() as usize, 0)?;
    let events = Row::filled(alloc, cpus * EVENTS, 0)?;
    let counters = Row::filled(alloc, cpus * header.counters.len(), 0)?;
    Ok(Volumes {
        pages,
        events,
        counters,
    })
}

/// The batches of percpu counters.
fn batches(alloc: Global, counters: &[Decl]) -> Result<Row<u32>, Memory>
    ensures { IfOk result (λ row. row ≡ map (λ decl. decl.batch) counters.now) }
{
    let batches: Vec<u32> = counters.iter().map(|counter| counter.batch).collect(alloc)?;
    Ok(Row::make(batches))
}
