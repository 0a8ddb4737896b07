ghost use Rattle.std.specs.Prelude.{◌≡◌, ◌*◌, ◌^◌, ◌<◌, IfOk, replicate};
ghost use Rattle.vms_bench_base.specs.Levels.{IsLevel};

use std::alloc::Global;
use vms_base::{CpuState, Layout, Memory, Row};
use vms_core::State;

/// The threshold of each CPU and place: the normal one of a zone of 4 GiB where 64 CPUs are online.
const THRESHOLD: u32 = 98;

/// The zone's drift mark, in pages. It covers what 128 CPUs may hide.
const MARK: u64 = 50_000;

/// Page counters that all have one value and hide nothing, where every threshold is the same and every CPU is online.
pub(crate) fn level(alloc: Global, layout: &Layout, value: i64) -> Result<State, Memory>
    ensures { IfOk result (IsLevel layout.now value) }
{
    let zones = layout.zones().len() as u32;
    let place = Row::filled(alloc, layout.counters() as usize, value)?;
    let system = Row::filled(alloc, layout.items() as usize, value)?;
    let diff = for_each_cpu(alloc, layout, layout.counters(), 0)?;
    let threshold = for_each_cpu(alloc, layout, layout.places(), THRESHOLD)?;
    let mark = Row::filled(alloc, zones as usize, MARK)?;
    let cpu = Row::filled(alloc, layout.cpus() as usize, CpuState::Online)?;
    let acknowledged = for_each_cpu(alloc, layout, zones, None)?;
    let threshold_sets = for_each_cpu(alloc, layout, layout.places(), 0)?;
    let mark_sets = Row::filled(alloc, zones as usize, 0)?;
    Ok(State {
        place,
        system,
        diff,
        threshold,
        mark,
        cpu,
        acknowledged,
        threshold_sets,
        mark_sets,
    })
}

/// A number for each CPU and each of `width` things.
fn for_each_cpu<T: Copy>(
    alloc: Global,
    layout: &Layout,
    width: u32,
    value: T,
) -> Result<Row<T>, Memory>
    ensures { IfOk result (λ row. row ≡ replicate (layout.now.cpus * width) value) }
{
    Row::filled(alloc, layout.cpus() as usize * width as usize, value)
}
