ghost use Rattle.std.specs.Prelude.{All, IfOk};
ghost use Rattle.vms_calls.specs.Common.{IsCounter};
ghost use Rattle.vms_bench_base.specs.Common.{IsReady};
ghost use Rattle.vms_seats.specs.Common.{IsFrom};

use crate::requests::Change;
use anyhow::{Result, bail};
use std::alloc::{AllocError, Global};
use std::thread;
use std::thread::Threads;
use vms_base::{CounterId, Mode, Overflow};
use vms_bench_base::{Distance, MOST_THREADS, Started, last_values, machine, start};
use vms_count::{add, fold};
use vms_words::{CpuPass, PageTable};

/// How many CPUs the machine has.
const CPUS: u32 = 64;

/// What a change adds, in pages: 19 changes stay within the threshold, and the 20th passes it.
const DELTA: i64 = 5;

/// Lets threads change a counter of the zone on a CPU each, and tells the counter's global value and the system-wide
/// value of its item then. The counter's number is that of the threads: no compiler can know it.
pub(crate) fn change_counter<R: Threads + Sync>(
    rt: &R,
    alloc: Global,
    change: Change,
    calls: u64,
    threads: u32,
    distance: Distance,
) -> Result<(i64, i64)> {
    if threads == 0 || threads > MOST_THREADS {
        bail!("1 to {MOST_THREADS} threads can change a counter");
    }
    let Started { table, passes, .. } = start(alloc, machine(CPUS)?, 0, threads, distance)?;
    let counter = CounterId { number: threads };
    let changed = change_each(rt, &table, passes, counter, change, calls)?;
    Ok(last_values(&table, changed, counter)?)
}

/// Lets a thread for each pass change a counter.
fn change_each<R: Threads + Sync>(
    rt: &R,
    table: &PageTable,
    passes: Vec<CpuPass>,
    counter: CounterId,
    change: Change,
    calls: u64,
) -> Result<Vec<Result<CpuPass, Overflow>>, AllocError>
    requires counter { IsCounter table.now.facts.layout counter.number }
    requires passes { All (IsReady table.now) passes.items }
    ensures { IfOk result
        (λ changed. All (λ r. IfOk r (λ p. IsFrom p.pass table.now)) changed.items) }
{
    thread::map_vec(
        rt,
        passes,
        &|pass| { change_often(table, pass, counter, change, calls) },
    )
}

/// Changes a counter on a pass's CPU again and again.
fn change_often(
    table: &PageTable,
    pass: CpuPass,
    counter: CounterId,
    change: Change,
    calls: u64,
) -> Result<CpuPass, Overflow>
    requires counter { IsCounter table.now.facts.layout counter.number }
    requires ready { IsReady table.now pass }
    ensures { IfOk result (λ p. IsFrom p.pass table.now) }
{
    match change {
        Change::Add => add_often(table, pass, counter, calls),
        Change::AddAndFold => fold_often(table, pass, counter, calls),
    }
}

/// Adds to a counter again and again.
fn add_often(
    table: &PageTable,
    mut pass: CpuPass,
    counter: CounterId,
    calls: u64,
) -> Result<CpuPass, Overflow>
    requires counter { IsCounter table.now.facts.layout counter.number }
    requires ready { IsReady table.now pass }
    ensures { IfOk result (λ p. IsFrom p.pass table.now) }
{
    for _ in 0..calls {
        add(table, &mut pass, counter, DELTA, Mode::Mod)?;
    }
    Ok(pass)
}

/// Adds to a counter and folds the pass's CPU, again and again.
fn fold_often(
    table: &PageTable,
    mut pass: CpuPass,
    counter: CounterId,
    calls: u64,
) -> Result<CpuPass, Overflow>
    requires counter { IsCounter table.now.facts.layout counter.number }
    requires ready { IsReady table.now pass }
    ensures { IfOk result (λ p. IsFrom p.pass table.now) }
{
    let cpu = pass.cpu();
    for _ in 0..calls {
        add(table, &mut pass, counter, DELTA, Mode::Mod)?;
        fold(table, &mut pass, cpu);
    }
    Ok(pass)
}
