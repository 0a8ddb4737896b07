ghost use Rattle.std.specs.Prelude.{◌≡◌, ◌+◌, ◌^◌, pos};
ghost use Rattle.vms_world.specs.Common.{IsCounter, IsCpu, diff_at, with_diff, with_carried, flushed, flushed_pages};
ghost use Rattle.vms_world.specs.Common.{IsWorldOf};
ghost use Rattle.vms_hotplug.specs.Folding.{FlushesCpu, IsSmallState};

use crate::refreshing::is_online;
use vms_base::{CounterId, CpuId, Header, Layout};
use vms_core::State;
use vms_world::World;

/// Folds the differentials of every online CPU: they move to the global values and to the system-wide ones, as
/// `cpu_vm_stats_fold` of mm/vmstat.c moves those of one CPU. Dead CPUs, thresholds and marks stay as they are.
pub fn flush(world: &mut World, header: &Header)
    requires { IsWorldOf header.now world.old }
    ensures flushed { world.new ≡ flushed header.now.layout world.old }
    ensures stays { IsWorldOf header.now world.new }
{
    flush_pages(&mut world.pages, &header.layout);
}

/// Does the same on page counters alone.
pub fn flush_pages(pages: &mut State, layout: &Layout)
    requires { IsSmallState layout.now (2 ^ 60) pages.old }
    ensures { pages.new ≡ flushed_pages layout.now pages.old }
{
    for number in 0..layout.cpus() {
        let cpu = CpuId { number };
        if is_online(pages.cpu_at(cpu)) {
            fold(pages, layout, cpu);
        }
    }
}

/// Folds the differentials of one CPU.
fn fold(pages: &mut State, layout: &Layout, cpu: CpuId)
    requires room { IsSmallState layout.now (2 ^ 60 + 2 ^ 59) pages.old }
    requires cpu { IsCpu layout.now cpu.number }
    ensures { FlushesCpu layout.now cpu.number pages.old pages.new }
{
    for number in 0..layout.counters() {
        fold_counter(pages, layout, cpu, CounterId { number });
    }
}

/// Moves a differential to the global value of its counter and to the system-wide value of its item.
fn fold_counter(pages: &mut State, layout: &Layout, cpu: CpuId, counter: CounterId)
    requires room { IsSmallState layout.now (2 ^ 61) pages.old }
    requires cpu { IsCpu layout.now cpu.number }
    requires counter { IsCounter layout.now counter.number }
    ensures { pages.new ≡ with_carried layout.now counter.number (diff_at pages.old cpu.number counter.number)
        (with_diff pages.old cpu.number counter.number (pos 0)) }
{
    let width = layout.counters() as usize;
    let item = layout.item_of(counter).number as usize;
    let at = cpu.number as usize * width + counter.number as usize;
    let amount = pages.diff.get(at);
    pages.diff.set(at, 0);
    let value = pages.place.get(counter.number as usize) + amount;
    pages.place.set(counter.number as usize, value);
    let sum = pages.system.get(item) + amount;
    pages.system.set(item, sum);
}
