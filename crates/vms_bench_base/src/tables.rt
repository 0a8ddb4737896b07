ghost use Rattle.std.specs.Prelude.{◌≡◌, ◌^◌, ◌≤◌, [], All, IfOk, unsigned_abs};
ghost use Rattle.vms_calls.specs.Common.{IsCounter};
ghost use Rattle.vms_bench_base.specs.Distances.{HasCpus};
ghost use Rattle.vms_bench_base.specs.Machines.{AreOnline, IsMachine};
ghost use Rattle.vms_bench_base.specs.ReadyPasses.{IsReady};
ghost use Rattle.vms_bench_base.specs.Starts.{IsStarted};
ghost use Rattle.vms_seats.specs.Common.{IsFrom};

use crate::levels::level;
use crate::machines::{Distance, cpu_of_thread, header};
use std::alloc::Global;
use vms_base::{CounterId, Header, Layout, Memory, Overflow, Row, Volume};
use vms_words::{CpuPass, MainPass, PageTable};

/// Page counters, the header that they were made of, and a pass for each thread.
#[derive(Drop)]
pub struct Started {
    pub header: Header,
    pub table: PageTable,
    pub passes: Vec<CpuPass>,
}

/// The page counters of a machine, which all have one value, in pages, and passes for so many threads, on CPUs at this
/// distance.
pub fn start(
    alloc: Global,
    layout: Layout,
    value: i64,
    threads: u32,
    distance: Distance,
) -> Result<Started, Memory>
    requires value { unsigned_abs value ≤ 2 ^ 60 }
    requires threads { threads ≤ 4 }
    requires cpus { HasCpus distance threads layout.cpus }
    ensures { IfOk result IsStarted }
{
    let header = header(alloc, layout)?;
    let (table, mut main) = make_table(alloc, &header, value)?;
    let passes = begin_passes(alloc, &table, &mut main, threads, distance)?;
    Ok(Started {
        header,
        table,
        passes,
    })
}

/// The page counters of a machine, which all have one value, in pages. All CPUs are online, and hide nothing.
fn make_table(alloc: Global, header: &Header, value: i64) -> Result<(PageTable, MainPass), Memory>
    requires header { IsMachine header.now }
    requires value { unsigned_abs value ≤ 2 ^ 60 }
    ensures online { IfOk result (λ made. AreOnline made.0.facts) }
    ensures layout { IfOk result (λ made. made.0.facts.layout ≡ header.now.layout) }
    ensures sizes { IfOk result (λ made. made.0.facts.sizes ≡ header.now.sizes) }
    ensures main { IfOk result (λ made. IsFrom made.1 made.0 × (made.1.seen ≡ [])) }
{
    let base = level(alloc, &header.layout, value)?;
    let made = PageTable::make(alloc, header, &base)?;
    Ok(made)
}

/// A pass for each thread, on the thread's CPU.
fn begin_passes(
    alloc: Global,
    table: &PageTable,
    main: &mut MainPass,
    threads: u32,
    distance: Distance,
) -> Result<Vec<CpuPass>, Memory>
    requires table { IsFrom main.old table.now }
    requires begins { main.old.seen ≡ [] }
    requires online { AreOnline table.now.facts }
    requires threads { threads ≤ 4 }
    requires cpus { HasCpus distance threads table.now.facts.layout.cpus }
    ensures { IfOk result (λ passes. All (IsReady table.now) passes.items) }
{
    let counters = table.layout().counters() as usize;
    let mut passes = Vec::with_capacity(alloc, threads as usize)?;
    for thread in 0..threads {
        let volume: Volume = Row::filled(alloc, counters, 0)?;
        passes.push(table.cpu_pass(main, cpu_of_thread(distance, thread), volume))?;
    }
    Ok(passes)
}

/// A counter's global value and the system-wide value of its item, in pages, once every thread has ended.
pub fn last_values(
    table: &PageTable,
    passes: Vec<Result<CpuPass, Overflow>>,
    counter: CounterId,
) -> Result<(i64, i64), Overflow>
    requires counter { IsCounter table.now.facts.layout counter.number }
    requires table { All (λ r. IfOk r (λ p. IsFrom p.pass table.now)) passes.items }
{
    let item = table.layout().item_of(counter);
    let mut values = (0, 0);
    for pass in passes {
        let mut pass = pass?;
        values = (
            table.load_place(&mut pass, counter),
            table.load_system(&mut pass, item),
        );
    }
    Ok(values)
}
