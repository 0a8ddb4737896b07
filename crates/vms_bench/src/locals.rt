ghost use Rattle.std.specs.Prelude.{◌≡◌, ◌<◌, ◌≤◌, [], All, IfOk};
ghost use Rattle.vms_bench.specs.Locals.{AreOpen};
ghost use Rattle.vms_seats.specs.Common.{IsFrom};

use crate::CPUS;
use anyhow::{Result, bail};
use std::alloc::{AllocError, Global};
use std::sync::Wait;
use std::thread;
use std::thread::Threads;
use vms_base::{CpuState, Memory, Overflow, PcpuId, Row, Volume};
use vms_bench_base::{Distance, MOST_THREADS, cpu_of_thread, machine};
use vms_pcpu::{PcpuMain, PcpuPass, PcpuTable};
use vms_pcpu_core::PcpuState;

/// How many percpu counters there are.
const COUNTERS: usize = 8;

/// What a local part of a counter may reach.
const BATCH: u32 = 65_536;

/// What is added, and taken away by the next addition: so the local part stays within the batch.
const AMOUNT: i64 = 3;

/// Lets threads add to a percpu counter on a CPU each, one by one, and tells its sum then.
pub(crate) fn add_locals<R: Threads + Wait + Sync>(
    rt: &R,
    alloc: Global,
    changes: u64,
    threads: u32,
    distance: Distance,
) -> Result<i64> {
    if threads == 0 || threads > MOST_THREADS {
        bail!("1 to {MOST_THREADS} threads can add");
    }
    let counter = PcpuId { number: threads };
    let (table, mut main) = make_table(alloc)?;
    let passes = begin_passes(alloc, &table, &mut main, threads, distance)?;
    last_sum(
        rt,
        &table,
        add_each(rt, &table, passes, counter, changes)?,
        counter,
    )
}

/// The percpu counters of the machine, all 0, in which all CPUs are online.
fn make_table(alloc: Global) -> Result<(PcpuTable, PcpuMain)>
    ensures open { IfOk result (λ made. AreOpen made.0.facts) }
    ensures main { IfOk result (λ made. IsFrom made.1 made.0 × (made.1.seen ≡ [])) }
{
    let layout = machine(CPUS)?;
    let batch = Row::filled(alloc, COUNTERS, BATCH)?;
    let count = Row::filled(alloc, COUNTERS, 0)?;
    let local = Row::filled(alloc, CPUS as usize * COUNTERS, 0)?;
    let base = PcpuState {
        batch,
        count,
        local,
    };
    let cpus = Row::filled(alloc, CPUS as usize, CpuState::Online)?;
    let made = PcpuTable::make(alloc, &layout, &base, cpus.as_slice())?;
    Ok(made)
}

/// Begins a pass for each thread.
fn begin_passes(
    alloc: Global,
    table: &PcpuTable,
    main: &mut PcpuMain,
    threads: u32,
    distance: Distance,
) -> Result<Vec<PcpuPass>, Memory>
    requires table { IsFrom main.old table.now }
    requires begins { main.old.seen ≡ [] }
    requires open { AreOpen table.now.facts }
    requires threads { threads ≤ 4 }
    ensures { IfOk result (λ passes. All (λ p. IsFrom p.pass table.now) passes.items) }
{
    let mut passes = Vec::with_capacity(alloc, threads as usize)?;
    for thread in 0..threads {
        let volume: Volume = Row::filled(alloc, COUNTERS, 0)?;
        passes.push(table.cpu_pass(main, cpu_of_thread(distance, thread), volume))?;
    }
    Ok(passes)
}

/// Adds to a counter on a pass's CPU, one by one.
fn add_often<R: Wait>(
    rt: &R,
    table: &PcpuTable,
    mut pass: PcpuPass,
    counter: PcpuId,
    changes: u64,
) -> Result<PcpuPass, Overflow>
    requires open { AreOpen table.now.facts }
    requires counter { counter.number < 8 }
    requires table { IsFrom pass.pass table.now }
    ensures { IfOk result (λ p. IsFrom p.pass table.now) }
{
    let mut amount = AMOUNT;
    for _ in 0..changes {
        table.add(rt, &mut pass, counter, amount)?;
        amount = -amount;
    }
    Ok(pass)
}

/// Lets a thread for each pass add.
fn add_each<R: Threads + Wait + Sync>(
    rt: &R,
    table: &PcpuTable,
    passes: Vec<PcpuPass>,
    counter: PcpuId,
    changes: u64,
) -> Result<Vec<Result<PcpuPass, Overflow>>, AllocError>
    requires open { AreOpen table.now.facts }
    requires counter { counter.number < 8 }
    requires table { All (λ p. IsFrom p.pass table.now) passes.items }
    ensures { IfOk result (λ added. All (λ r. IfOk r (λ p. IsFrom p.pass table.now)) added.items) }
{
    thread::map_vec(
        rt,
        passes,
        &|pass| { add_often(rt, table, pass, counter, changes) },
    )
}

/// The sum of a counter, once every thread has ended.
fn last_sum<R: Wait>(
    rt: &R,
    table: &PcpuTable,
    added: Vec<Result<PcpuPass, Overflow>>,
    counter: PcpuId,
) -> Result<i64>
    requires open { AreOpen table.now.facts }
    requires counter { counter.number < 8 }
    requires table { All (λ r. IfOk r (λ p. IsFrom p.pass table.now)) added.items }
{
    let mut sum = 0;
    for pass in added {
        sum = table.sum(rt, &mut pass?, counter);
    }
    Ok(sum)
}
