ghost use Rattle.std.specs.Prelude.{◌≡◌, ◌<◌, IfOk};
ghost use Rattle.vms_calls.specs.Common.{IsLayout};
ghost use Rattle.vms_bench_base.specs.Distances.{cpu_number};
ghost use Rattle.vms_bench_base.specs.Machines.{IsMachine};

use std::alloc::Global;
use vms_base::{CpuId, Header, Layout, LayoutError, Memory, Row, ZoneKind, ZoneName, ZoneSize};

/// How far apart the CPUs are on which threads work.
#[derive(Clone, Copy, Debug, PartialEq, Eq)]
pub enum Distance {
    /// Side by side: 0, 1, 2 and 3.
    Near,
    /// 16 apart: 0, 16, 32 and 48.
    Apart,
}

/// The most threads.
pub const MOST_THREADS: u32 = 4;

/// The zone's size, in pages: 4 GiB.
const SIZE: ZoneSize = ZoneSize {
    managed: 1 << 20,
    min: 10_000,
    low: 20_000,
    high: 30_000,
};

/// A machine with one zone and so many CPUs. A place has eight items, and sixteen where there are more than 64 CPUs.
pub fn machine(cpus: u32) -> Result<Layout, LayoutError>
    ensures { IfOk result (λ layout. IsLayout layout × (layout.cpus ≡ cpus)) }
{
    let zones = [ZoneName {
        node: 0,
        kind: ZoneKind::Normal,
    }];
    if cpus > 64 {
        Layout::make_wide(&zones, cpus)
    } else {
        Layout::make(&zones, cpus)
    }
}

/// The header of such a machine.
pub(crate) fn header(alloc: Global, layout: Layout) -> Result<Header, Memory>
    ensures machine { IfOk result IsMachine }
    ensures layout { IfOk result (λ header. header.layout ≡ layout) }
{
    let sizes = Row::filled(alloc, layout.zones().len(), SIZE)?;
    Ok(Header {
        layout,
        sizes,
        bases: Row::filled(alloc, 0, 0)?,
        counters: Row::make(Vec::new(alloc)),
        items: Row::make(Vec::new(alloc)),
    })
}

/// The CPU of a thread.
pub fn cpu_of_thread(distance: Distance, thread: u32) -> CpuId
    requires { thread < 4 }
    ensures { result.number ≡ cpu_number distance thread }
{
    let number = match distance {
        Distance::Near => thread,
        Distance::Apart => 16 * thread,
    };
    CpuId { number }
}
