ghost use Rattle.std.specs.Prelude.{◌≡◌, ℕ, ◌+◌, ◌/◌, ◌≤◌, ◌^◌, ◌+ℤ◌, true, List, [], ◌∷◌, Some, length, slice_set};
ghost use Rattle.std.specs.Prelude.{unsigned_abs};
ghost use Rattle.vms_calls.specs.Common.{Diffs, IsCounter, IsCpu, IsGroup, IsItem, IsPlace, counter_at, group_of};
ghost use Rattle.vms_calls.specs.Common.{item_count, item_of, acknowledges, system_steps, taken_of_item, to_place};
ghost use Rattle.vms_calls.specs.Common.{CarriesNothing, carried, carried_of_item, pages};
ghost use Rattle.vms_seats.specs.Common.{IsFrom, Made};
ghost use Rattle.vms_count.specs.Folding.{owns_cpu, mine, sum_at, AreSums, NoneForCounters, HasFolded, FoldsGroups};
ghost use Rattle.vms_count.specs.Folding.{FoldsPlace, FoldsPlaces};

use crate::counters::item_of;
use vms_base::{CounterId, CpuId, GroupId, ItemId, PlaceId};
use vms_words::{Caller, PageTable};

/// As many items as a layout has at most.
const MOST_ITEMS: usize = 32;

/// Folds a CPU: its differentials move to the global values, and what was taken for each item to the system-wide ones
/// (`cpu_vm_stats_fold` and, by the CPU's owner, `refresh_cpu_vm_stats` of mm/vmstat.c). The owner acknowledges the
/// threshold of each zone once the zone's differentials are taken, which is not the kernel's.
pub fn fold<P: Caller>(table: &PageTable, pass: &mut P, cpu: CpuId)
    requires table { IsFrom (P.pass pass.old) table.now }
    requires cpu { IsCpu table.now.facts.layout cpu.number }
    requires nothing { CarriesNothing table.now.facts.layout (mine (P.pass pass.old)) }
    ensures folds { HasFolded table.now.facts.layout (P.pass pass.new) (P.pass pass.old) cpu }
    ensures carries { CarriesNothing table.now.facts.layout (mine (P.pass pass.new)) }
    ensures volume { P.volume pass.new ≡ P.volume pass.old }
{
    let own = is_own(pass.own(), cpu);
    let mut sums = [0; MOST_ITEMS];
    for number in 0..table.layout().places() {
        fold_place(table, pass, cpu, own, PlaceId { number }, &mut sums);
    }
    add_sums(table, pass, &sums);
}

/// Whether a pass that owns `who` owns this CPU.
#[inline]
fn is_own(who: Option<CpuId>, cpu: CpuId) -> bool
    ensures { result ≡ owns_cpu who cpu }
{
    match who {
        Some(own) => own.number == cpu.number,
        None => false,
    }
}

/// Takes the groups of a place. The owner of the CPU acknowledges the threshold of a zone as it was before the groups
/// were taken.
#[inline]
fn fold_place<P: Caller>(
    table: &PageTable,
    pass: &mut P,
    cpu: CpuId,
    own: bool,
    place: PlaceId,
    sums: &mut [i64; MOST_ITEMS],
)
    requires table { IsFrom (P.pass pass.old) table.now }
    requires cpu { IsCpu table.now.facts.layout cpu.number }
    requires own { own ≡ true → (P.pass pass.old).cpu ≡ Some cpu }
    requires place { IsPlace table.now.facts.layout place.number }
    requires none { NoneForCounters (P.pass pass.old) }
    requires sums { AreSums (2 ^ 20) sums.old }
    ensures folds { FoldsPlace table.now.facts.layout (acknowledges table.now.facts.layout own place.number) cpu
        place.number (P.pass pass.new) (P.pass pass.old) sums.old sums.new }
    ensures sums { (most : ℕ) → AreSums most sums.old → AreSums (most + 2048) sums.new }
    ensures volume { P.volume pass.new ≡ P.volume pass.old }
{
    pass.is_live();
    let zones = table.layout().zones().len() as u32;
    if own && place.number < zones {
        let number = table.load_threshold(pass, place).number;
        fold_groups(table, pass, cpu, place, sums);
        table.acknowledge(pass, place, number);
    } else {
        fold_groups(table, pass, cpu, place, sums);
    }
}

/// Takes the groups of a place.
#[inline(always)]
fn fold_groups<P: Caller>(
    table: &PageTable,
    pass: &mut P,
    cpu: CpuId,
    place: PlaceId,
    sums: &mut [i64; MOST_ITEMS],
)
    requires table { IsFrom (P.pass pass.old) table.now }
    requires cpu { IsCpu table.now.facts.layout cpu.number }
    requires place { IsPlace table.now.facts.layout place.number }
    requires none { NoneForCounters (P.pass pass.old) }
    requires sums { AreSums (2 ^ 20) sums.old }
    ensures folds { (groups : List Diffs) × (length groups ≡ table.now.facts.layout.positions / 8)
        × FoldsGroups table.now.facts.layout cpu (group_of (counter_at table.now.facts.layout place.number 0)) groups
        (P.pass pass.new) (P.pass pass.old) sums.old sums.new }
    ensures sums { (most : ℕ) → AreSums most sums.old → AreSums (most + 2048) sums.new }
    ensures volume { P.volume pass.new ≡ P.volume pass.old }
{
    pass.is_live();
    let each = table.layout().positions() / 8;
    let first = each * place.number;
    for n in 0..each {
        fold_group(table, pass, cpu, GroupId { number: first + n }, sums);
    }
}

/// Takes a group, and adds each differential to the global value of its counter and to the sum of its item.
#[inline(always)]
fn fold_group<P: Caller>(
    table: &PageTable,
    pass: &mut P,
    cpu: CpuId,
    group: GroupId,
    sums: &mut [i64; MOST_ITEMS],
)
    requires table { IsFrom (P.pass pass.old) table.now }
    requires cpu { IsCpu table.now.facts.layout cpu.number }
    requires group { IsGroup table.now.facts.layout group.number }
    requires none { NoneForCounters (P.pass pass.old) }
    requires sums { AreSums (2 ^ 21) sums.old }
    ensures folds { (w : Diffs) × FoldsGroups table.now.facts.layout cpu group.number (w ∷ [])
        (P.pass pass.new) (P.pass pass.old) sums.old sums.new }
    ensures sums { (most : ℕ) → AreSums most sums.old → AreSums (most + 1024) sums.new }
    ensures volume { P.volume pass.new ≡ P.volume pass.old }
{
    pass.is_live();
    let found = table.take(pass, cpu, group);
    for n in 0..8 {
        let counter = CounterId {
            number: 8 * group.number + n,
        };
        add_entry(table, pass, counter, found.entry(n), sums);
    }
}

/// Adds a differential that was taken to the global value of its counter and to the sum of its item: no step is made
/// for 0.
#[inline]
fn add_entry<P: Caller>(
    table: &PageTable,
    pass: &mut P,
    counter: CounterId,
    amount: i64,
    sums: &mut [i64; MOST_ITEMS],
)
    requires table { IsFrom (P.pass pass.old) table.now }
    requires counter { IsCounter table.now.facts.layout counter.number }
    requires carries { carried counter.number (mine (P.pass pass.old)) ≡ amount }
    requires amount { unsigned_abs amount ≤ 128 }
    requires sums { AreSums (2 ^ 22) sums.old }
    ensures made { Made pages (P.pass pass.new) (P.pass pass.old) (to_place counter.number amount) }
    ensures sum { sums.new ≡ slice_set sums.old (item_of table.now.facts.layout counter.number)
        (sum_at sums.old (item_of table.now.facts.layout counter.number) +ℤ amount) }
    ensures volume { P.volume pass.new ≡ P.volume pass.old }
{
    pass.is_live();
    if amount != 0 {
        table.add_place(pass, counter, amount);
        sums[item_of(table.layout(), counter).number as usize] += amount;
    }
}

/// Adds the sums of the items to the system-wide values: no step is made for 0.
#[inline]
fn add_sums<P: Caller>(table: &PageTable, pass: &mut P, sums: &[i64; MOST_ITEMS])
    requires table { IsFrom (P.pass pass.old) table.now }
    requires carries { (i : ℕ) → IsItem table.now.facts.layout i →
        carried_of_item table.now.facts.layout i (mine (P.pass pass.old)) ≡ sum_at sums.now i }
    requires sums { AreSums (2 ^ 21) sums.now }
    ensures made { (groups : List Diffs) → ((i : ℕ) → IsItem table.now.facts.layout i →
        sum_at sums.now i ≡ taken_of_item table.now.facts.layout i 0 groups) →
        Made pages (P.pass pass.new) (P.pass pass.old)
        (system_steps table.now.facts.layout groups 0 (item_count table.now.facts.layout)) }
    ensures volume { P.volume pass.new ≡ P.volume pass.old }
{
    pass.is_live();
    for number in 0..table.layout().items() {
        let sum = sums[number as usize];
        if sum != 0 {
            table.add_system(pass, ItemId { number }, sum);
        }
    }
}
