ghost use Rattle.std.specs.Prelude.{◌≡◌, ℕ, ◌+◌, ◌/◌, ◌≤◌, ◌^◌, ◌+ℤ◌, true, length, Option, slice_set, unsigned_abs};
ghost use Rattle.vms_calls.specs.Common.{CpuId, IsCounter, IsCpu, IsGroup, IsItem, IsLayout, IsPlace, counter_at};
ghost use Rattle.vms_calls.specs.Common.{counter_count, group_of, item_count, item_of, system_at, value_at, with_value};
ghost use Rattle.vms_calls.specs.Common.{IsFold};
ghost use Rattle.vms_plain_pages.specs.Alone.{IsSmallState, CallLeadsAlone};
ghost use Rattle.vms_plain_pages.specs.Folding.{FoldsCpu};
ghost use Rattle.vms_plain_pages.specs.FoldParts.{AddsSums, AreSums, FoldsGroups, FoldsPlace, sum_at};

use vms_base::{CounterId, CpuId, GroupId, ItemId, Layout, PlaceId};
use vms_core::Plain;

/// As many items as a layout has at most.
const MOST_ITEMS: usize = 32;

/// Folds a CPU: its differentials move to the global values, and what was taken for each item to the system-wide ones
/// (`cpu_vm_stats_fold` and, with `own`, `refresh_cpu_vm_stats` of mm/vmstat.c). The owner of a CPU folds it with
/// `own`, and acknowledges the threshold of each zone once the zone's differentials are taken, which is not the
/// kernel's.
pub fn fold(pages: &mut Plain, layout: &Layout, cpu: CpuId, own: bool)
    requires room { IsSmallState layout.now (2 ^ 61) pages.old }
    requires cpu { IsCpu layout.now cpu.number }
    ensures made { (who : Option CpuId) → (own ≡ true → who ≡ Some cpu) →
        CallLeadsAlone who (IsFold layout.now own cpu) pages.old pages.new }
    ensures folds { FoldsCpu layout.now own cpu.number pages.old pages.new }
{
    let mut sums = [0; MOST_ITEMS];
    for number in 0..layout.places() {
        fold_place(pages, layout, cpu, own, PlaceId { number }, &mut sums);
    }
    add_sums(pages, layout, &sums);
}

/// Takes the groups of a place. The owner of the CPU acknowledges the threshold of a zone as it was before the groups
/// were taken.
fn fold_place(
    pages: &mut Plain,
    layout: &Layout,
    cpu: CpuId,
    own: bool,
    place: PlaceId,
    sums: &mut [i64; MOST_ITEMS],
)
    requires room { IsSmallState layout.now (2 ^ 61 + 125) pages.old }
    requires cpu { IsCpu layout.now cpu.number }
    requires place { IsPlace layout.now place.number }
    requires sums { AreSums (2 ^ 20) sums.old }
    ensures folds { FoldsPlace layout.now own cpu place.number pages.old pages.new sums.old sums.new }
    ensures sums { (most : ℕ) → AreSums most sums.old → AreSums (most + 2048) sums.new }
{
    let zones = layout.zones().len() as u32;
    if own && place.number < zones {
        let number = pages.load_threshold(cpu, place).number;
        fold_groups(pages, layout, cpu, place, sums);
        pages.acknowledge(cpu, place, number);
    } else {
        fold_groups(pages, layout, cpu, place, sums);
    }
}

/// Takes the groups of a place.
fn fold_groups(
    pages: &mut Plain,
    layout: &Layout,
    cpu: CpuId,
    place: PlaceId,
    sums: &mut [i64; MOST_ITEMS],
)
    requires room { IsSmallState layout.now (2 ^ 61 + 125) pages.old }
    requires cpu { IsCpu layout.now cpu.number }
    requires place { IsPlace layout.now place.number }
    requires sums { AreSums (2 ^ 20) sums.old }
    ensures folds { FoldsGroups layout.now cpu (group_of (counter_at layout.now place.number 0))
        (layout.now.positions / 8) pages.old pages.new sums.old sums.new }
    ensures sums { (most : ℕ) → AreSums most sums.old → AreSums (most + 2048) sums.new }
{
    let each = layout.positions() / 8;
    let first = each * place.number;
    for n in 0..each {
        fold_group(pages, layout, cpu, GroupId { number: first + n }, sums);
    }
}

/// Takes a group, and adds each differential to the global value of its counter and to the sum of its item.
fn fold_group(
    pages: &mut Plain,
    layout: &Layout,
    cpu: CpuId,
    group: GroupId,
    sums: &mut [i64; MOST_ITEMS],
)
    requires layout { IsLayout layout.now }
    requires room { IsSmallState layout.now (2 ^ 61 + 250) pages.old }
    requires cpu { IsCpu layout.now cpu.number }
    requires group { IsGroup layout.now group.number }
    requires sums { AreSums (2 ^ 21) sums.old }
    ensures folds { FoldsGroups layout.now cpu group.number 1 pages.old pages.new sums.old sums.new }
    ensures sums { (most : ℕ) → AreSums most sums.old → AreSums (most + 1024) sums.new }
{
    let found = pages.take(cpu, group);
    for n in 0..8 {
        let counter = CounterId {
            number: 8 * group.number + n,
        };
        add_entry(pages, layout, counter, found.values[n as usize], sums);
    }
}

/// Adds a differential that was taken to the global value of its counter and to the sum of its item: no step is made
/// for 0.
#[inline]
fn add_entry(
    pages: &mut Plain,
    layout: &Layout,
    counter: CounterId,
    amount: i64,
    sums: &mut [i64; MOST_ITEMS],
)
    requires counter { IsCounter layout.now counter.number }
    requires place { length pages.old.place ≡ counter_count layout.now }
    requires value { unsigned_abs (value_at pages.old counter.number) ≤ 2 ^ 61 + 250 }
    requires amount { unsigned_abs amount ≤ 128 }
    requires sums { AreSums (2 ^ 22) sums.old }
    ensures value { pages.new ≡ with_value pages.old counter.number (value_at pages.old counter.number +ℤ amount) }
    ensures sum { sums.new ≡ slice_set sums.old (item_of layout.now counter.number)
        (sum_at sums.old (item_of layout.now counter.number) +ℤ amount) }
{
    if amount != 0 {
        pages.add_place(counter, amount);
        sums[layout.item_of(counter).number as usize] += amount;
    }
}

/// Adds the sums of the items to the system-wide values: no step is made for 0.
fn add_sums(pages: &mut Plain, layout: &Layout, sums: &[i64; MOST_ITEMS])
    requires systems { (i : ℕ) → IsItem layout.now i → unsigned_abs (system_at pages.old i) ≤ 2 ^ 61 }
    requires length { length pages.old.system ≡ item_count layout.now }
    requires sums { AreSums (2 ^ 21) sums.now }
    ensures { AddsSums layout.now sums.now pages.old pages.new }
{
    for number in 0..layout.items() {
        let sum = sums[number as usize];
        if sum != 0 {
            pages.add_system(ItemId { number }, sum);
        }
    }
}
