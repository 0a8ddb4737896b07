ghost use Rattle.std.specs.Prelude.{◌≡◌, ℕ, ◌<◌, ◌≤◌, [], All, IfOk, Some};
ghost use Rattle.vms_calls.specs.Common.{CpuId};
ghost use Rattle.vms_bench.specs.Events.{AreOnline};
ghost use Rattle.vms_seats.specs.Common.{IsFrom};

use crate::CPUS;
use anyhow::{Result, bail};
use std::alloc::{AllocError, Global};
use std::thread;
use std::thread::Threads;
use vms_base::{CpuState, EventId, Memory, Overflow, Row, Volume};
use vms_bench_base::{Distance, MOST_THREADS, cpu_of_thread, machine};
use vms_event::{EventMain, EventPass, EventTable};
use vms_event_core::EventState;

/// How many events there are.
const EVENTS: usize = 8;

/// The event that is counted.
const EVENT: EventId = EventId { number: 4 };

/// Lets threads count an event on a CPU each, one by one, and tells how often it was counted then.
pub(crate) fn count_events<R: Threads + Sync>(
    rt: &R,
    alloc: Global,
    changes: u64,
    threads: u32,
    distance: Distance,
) -> Result<u64> {
    if threads == 0 || threads > MOST_THREADS {
        bail!("1 to {MOST_THREADS} threads can count");
    }
    let (table, mut main) = make_table(alloc)?;
    let passes = begin_passes(alloc, &table, &mut main, threads, distance)?;
    last_total(&table, count_each(rt, &table, passes, changes)?)
}

/// The event counters of the machine, in which all CPUs are online and have counted nothing.
fn make_table(alloc: Global) -> Result<(EventTable, EventMain)>
    ensures online { IfOk result (λ made. AreOnline made.0.facts) }
    ensures main { IfOk result (λ made. IsFrom made.1 made.0 × (made.1.seen ≡ [])) }
{
    let layout = machine(CPUS)?;
    let words = Row::filled(alloc, CPUS as usize * EVENTS, 0)?;
    let cpus = Row::filled(alloc, CPUS as usize, CpuState::Online)?;
    let made = EventTable::make(alloc, &layout, &EventState { words }, cpus.as_slice())?;
    Ok(made)
}

/// Begins a pass for each thread.
fn begin_passes(
    alloc: Global,
    table: &EventTable,
    main: &mut EventMain,
    threads: u32,
    distance: Distance,
) -> Result<Vec<EventPass>, Memory>
    requires table { IsFrom main.old table.now }
    requires begins { main.old.seen ≡ [] }
    requires online { AreOnline table.now.facts }
    requires threads { threads ≤ 4 }
    ensures { IfOk result (λ passes. All (λ p. IsFrom p.pass table.now) passes.items) }
{
    let mut passes = Vec::with_capacity(alloc, threads as usize)?;
    for thread in 0..threads {
        let volume: Volume = Row::filled(alloc, EVENTS, 0)?;
        passes.push(table.cpu_pass(main, cpu_of_thread(distance, thread), volume))?;
    }
    Ok(passes)
}

/// Counts an event on a pass's CPU, one by one.
fn count(table: &EventTable, mut pass: EventPass, changes: u64) -> Result<EventPass, Overflow>
    requires { IsFrom pass.pass table.now }
    ensures { IfOk result (λ p. IsFrom p.pass table.now) }
{
    for _ in 0..changes {
        table.count(&mut pass, EVENT, 1)?;
    }
    Ok(pass)
}

/// Lets a thread for each pass count.
fn count_each<R: Threads + Sync>(
    rt: &R,
    table: &EventTable,
    passes: Vec<EventPass>,
    changes: u64,
) -> Result<Vec<Result<EventPass, Overflow>>, AllocError>
    requires { All (λ p. IsFrom p.pass table.now) passes.items }
    ensures { IfOk result
        (λ counted. All (λ r. IfOk r (λ p. IsFrom p.pass table.now)) counted.items) }
{
    thread::map_vec(rt, passes, &|pass| count(table, pass, changes))
}

/// What all CPUs have counted, once every thread has ended.
fn last_total(table: &EventTable, counted: Vec<Result<EventPass, Overflow>>) -> Result<u64>
    requires { All (λ r. IfOk r (λ p. IsFrom p.pass table.now)) counted.items }
{
    let mut total = 0;
    for pass in counted {
        total = table.all_events(&mut pass?, EVENT);
    }
    Ok(total)
}
