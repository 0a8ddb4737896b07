ghost use Rattle.std.specs.Prelude.{All};
ghost use Rattle.vms_calls.specs.Common.{IsZone};
ghost use Rattle.vms_bench_base.specs.Common.{IsReady, IsHeaderOf};

use anyhow::{Result, bail};
use std::alloc::{AllocError, Global};
use std::thread;
use std::thread::Threads;
use vms_base::{Header, PlaceId, WaterMark};
use vms_bench_base::{Distance, MOST_THREADS, Started, cpu_of_thread, machine, start};
use vms_look::watermark_ok;
use vms_words::{CpuPass, PageTable};

/// The zone.
const ZONE: PlaceId = PlaceId { number: 0 };

/// The zone index up to which the request may use zones: that of Normal, so the zone keeps nothing back.
const MOST_INDEX: u32 = 2;

/// What tests answered.
#[derive(Clone, Copy, Debug)]
pub(crate) struct Tally {
    /// How many said yes, modulo 2^64.
    pub yes: u64,
    /// How many rested on a snapshot, modulo 2^64.
    pub snapshots: u64,
    /// The free pages that the last one rested on.
    pub free: u64,
}

/// Lets threads test a watermark of the zone on a CPU each, where every counter has this value and no CPU hides a page,
/// and tells what the tests of all threads answered.
pub(crate) fn test_watermark<R: Threads + Sync>(
    rt: &R,
    alloc: Global,
    cpus: u32,
    free: u32,
    calls: u64,
    threads: u32,
    distance: Distance,
) -> Result<Tally> {
    if threads == 0 || threads > MOST_THREADS {
        bail!("1 to {MOST_THREADS} threads can test a watermark");
    }
    let layout = machine(cpus)?;
    let last = cpu_of_thread(distance, threads - 1);
    if last.number >= cpus {
        bail!(
            "a thread works on CPU {}, and there are {cpus}",
            last.number
        );
    }
    let Started {
        header,
        table,
        passes,
    } = start(alloc, layout, i64::from(free), threads, distance)?;
    Ok(sum(test_each(rt, &table, &header, passes, calls)?))
}

/// Lets a thread for each pass test the watermark.
fn test_each<R: Threads + Sync>(
    rt: &R,
    table: &PageTable,
    header: &Header,
    passes: Vec<CpuPass>,
    calls: u64,
) -> Result<Vec<Tally>, AllocError>
    requires header { IsHeaderOf table.now.facts header.now }
    requires zone { IsZone table.now.facts.layout 0 }
    requires passes { All (IsReady table.now) passes.items }
{
    thread::map_vec(
        rt,
        passes,
        &|pass| { test_often(table, header, pass, calls) },
    )
}

/// Tests the watermark again and again.
fn test_often(table: &PageTable, header: &Header, mut pass: CpuPass, calls: u64) -> Tally
    requires header { IsHeaderOf table.now.facts header.now }
    requires zone { IsZone table.now.facts.layout 0 }
    requires ready { IsReady table.now pass }
{
    let mut tally = Tally {
        yes: 0,
        snapshots: 0,
        free: 0,
    };
    for _ in 0..calls {
        let verdict = watermark_ok(table, &mut pass, header, ZONE, WaterMark::Low, MOST_INDEX);
        tally.yes = tally.yes.wrapping_add(u64::from(verdict.yes));
        tally.snapshots = tally.snapshots.wrapping_add(u64::from(!verdict.fast));
        tally.free = verdict.free;
    }
    tally
}

/// What the tests of all threads answered.
fn sum(tallies: Vec<Tally>) -> Tally {
    let mut all = Tally {
        yes: 0,
        snapshots: 0,
        free: 0,
    };
    for tally in tallies {
        all.yes = all.yes.wrapping_add(tally.yes);
        all.snapshots = all.snapshots.wrapping_add(tally.snapshots);
        all.free = tally.free;
    }
    all
}
