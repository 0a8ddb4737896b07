//! The fold of a CPU.

ghost use Rattle.std.specs.Prelude.{◌≡◌, ℕ, ◌+◌, ◌/◌, ◌<◌, ◌≤◌, ◌^◌, ◌++◌, ◌+ℤ◌, OnErr, OnOk, length, slice_set};
ghost use Rattle.std.specs.Prelude.{unsigned_abs};
ghost use Rattle.vms_text.specs.Common.{Begins};
ghost use Rattle.vms_calls.specs.Common.{IsCounter, IsCpu, IsGroup, IsItem, IsLayout, IsPlace, counter_at};
ghost use Rattle.vms_calls.specs.Common.{counter_count, group_of, item_count, item_of, system_at, to_place, value_at};
ghost use Rattle.vms_calls.specs.Common.{to_system, with_system, with_value};
ghost use Rattle.vms_plain_pages.specs.Common.{AreSums, IsSmallState, sum_at};
ghost use Rattle.vms_call_lines.specs.Folds.{WritesFold, WritesGroups, WritesPlace, WritesSums};
ghost use Rattle.vms_rating_lines.specs.Lines.{step_lines};

use vms_base::{CounterId, CpuId, GroupId, ItemId, Layout, Memory, PlaceId};
use vms_core::{Plain, Step};
use vms_written_lines::push_event_line;

/// As many items as a layout has at most.
const MOST_ITEMS: usize = 32;

/// Folds a CPU, with `own` as its owner, which acknowledges the threshold of each zone (`vms_plain_pages::fold`). Each
/// group is taken as its line is written.
pub(crate) fn write_fold(
    out: &mut Vec<u8>,
    caller: u32,
    pages: &mut Plain,
    layout: &Layout,
    cpu: CpuId,
    own: bool,
) -> Result<(), Memory>
    requires room { IsSmallState layout.now (2 ^ 61) pages.old }
    requires cpu { IsCpu layout.now cpu.number }
    ensures ok { OnOk result (WritesFold layout.now own cpu caller pages.old pages.new out.old.items out.new.items) }
    ensures err { OnErr result (Begins out.old.items out.new.items) }
{
    let mut sums = [0; MOST_ITEMS];
    for number in 0..layout.places() {
        write_place(
            out,
            caller,
            pages,
            layout,
            cpu,
            own,
            PlaceId { number },
            &mut sums,
        )?;
    }
    write_sums(out, caller, pages, layout, &sums)
}

/// Takes the groups of a place. The owner of the CPU acknowledges the threshold of a zone as it was before the groups
/// were taken.
fn write_place(
    out: &mut Vec<u8>,
    caller: u32,
    pages: &mut Plain,
    layout: &Layout,
    cpu: CpuId,
    own: bool,
    place: PlaceId,
    sums: &mut [i64; MOST_ITEMS],
) -> Result<(), Memory>
    requires room { IsSmallState layout.now (2 ^ 61 + 125) pages.old }
    requires cpu { IsCpu layout.now cpu.number }
    requires place { IsPlace layout.now place.number }
    requires sums { AreSums (2 ^ 20) sums.old }
    ensures writes { OnOk result (WritesPlace layout.now own cpu place.number caller pages.old pages.new
        sums.old sums.new out.old.items out.new.items) }
    ensures sums { OnOk result ((most : ℕ) → AreSums most sums.old → AreSums (most + 2048) sums.new) }
    ensures err { OnErr result (Begins out.old.items out.new.items) }
{
    let zones = layout.zones().len() as u32;
    if own && place.number < zones {
        let read = pages.load_threshold(cpu, place);
        push_event_line(out, caller, &Step::LoadT(place, read.t, read.number))?;
        write_groups(out, caller, pages, layout, cpu, place, sums)?;
        push_event_line(out, caller, &Step::SetA(place, read.number))?;
        pages.acknowledge(cpu, place, read.number);
        Ok(())
    } else {
        write_groups(out, caller, pages, layout, cpu, place, sums)
    }
}

/// Takes the groups of a place.
fn write_groups(
    out: &mut Vec<u8>,
    caller: u32,
    pages: &mut Plain,
    layout: &Layout,
    cpu: CpuId,
    place: PlaceId,
    sums: &mut [i64; MOST_ITEMS],
) -> Result<(), Memory>
    requires room { IsSmallState layout.now (2 ^ 61 + 125) pages.old }
    requires cpu { IsCpu layout.now cpu.number }
    requires place { IsPlace layout.now place.number }
    requires sums { AreSums (2 ^ 20) sums.old }
    ensures writes { OnOk result (WritesGroups layout.now cpu (group_of (counter_at layout.now place.number 0))
        (layout.now.positions / 8) caller pages.old pages.new sums.old sums.new out.old.items out.new.items) }
    ensures sums { OnOk result ((most : ℕ) → AreSums most sums.old → AreSums (most + 2048) sums.new) }
    ensures err { OnErr result (Begins out.old.items out.new.items) }
{
    let each = layout.positions() / 8;
    let first = each * place.number;
    for n in 0..each {
        write_group(
            out,
            caller,
            pages,
            layout,
            cpu,
            GroupId { number: first + n },
            sums,
        )?;
    }
    Ok(())
}

/// Takes a group, and adds each differential to the global value of its counter and to the sum of its item.
fn write_group(
    out: &mut Vec<u8>,
    caller: u32,
    pages: &mut Plain,
    layout: &Layout,
    cpu: CpuId,
    group: GroupId,
    sums: &mut [i64; MOST_ITEMS],
) -> Result<(), Memory>
    requires layout { IsLayout layout.now }
    requires room { IsSmallState layout.now (2 ^ 61 + 250) pages.old }
    requires cpu { IsCpu layout.now cpu.number }
    requires group { IsGroup layout.now group.number }
    requires sums { AreSums (2 ^ 21) sums.old }
    ensures writes { OnOk result (WritesGroups layout.now cpu group.number 1 caller pages.old pages.new
        sums.old sums.new out.old.items out.new.items) }
    ensures sums { OnOk result ((most : ℕ) → AreSums most sums.old → AreSums (most + 1024) sums.new) }
    ensures err { OnErr result (Begins out.old.items out.new.items) }
{
    let found = pages.take(cpu, group);
    push_event_line(out, caller, &Step::Take(cpu, group, found))?;
    for n in 0..8 {
        let counter = CounterId {
            number: 8 * group.number + n,
        };
        write_entry(
            out,
            caller,
            pages,
            layout,
            counter,
            found.values[n as usize],
            sums,
        )?;
    }
    Ok(())
}

/// Adds a differential that was taken to the global value of its counter and to the sum of its item: no step is made
/// for 0.
#[inline]
fn write_entry(
    out: &mut Vec<u8>,
    caller: u32,
    pages: &mut Plain,
    layout: &Layout,
    counter: CounterId,
    amount: i64,
    sums: &mut [i64; MOST_ITEMS],
) -> Result<(), Memory>
    requires counter { IsCounter layout.now counter.number }
    requires place { length pages.old.place ≡ counter_count layout.now }
    requires value { unsigned_abs (value_at pages.old counter.number) ≤ 2 ^ 61 + 250 }
    requires amount { unsigned_abs amount ≤ 128 }
    requires sums { AreSums (2 ^ 22) sums.old }
    ensures value { OnOk result
        (pages.new ≡ with_value pages.old counter.number (value_at pages.old counter.number +ℤ amount)) }
    ensures sum { OnOk result (sums.new ≡ slice_set sums.old (item_of layout.now counter.number)
        (sum_at sums.old (item_of layout.now counter.number) +ℤ amount)) }
    ensures lines { OnOk result
        (out.new.items ≡ out.old.items ++ step_lines caller (to_place counter.number amount)) }
    ensures err { OnErr result (Begins out.old.items out.new.items) }
{
    if amount == 0 {
        return Ok(());
    }
    push_event_line(out, caller, &Step::AddG(counter, amount))?;
    pages.add_place(counter, amount);
    sums[layout.item_of(counter).number as usize] += amount;
    Ok(())
}

/// Adds the sums of the items to the system-wide values: no step is made for 0.
fn write_sums(
    out: &mut Vec<u8>,
    caller: u32,
    pages: &mut Plain,
    layout: &Layout,
    sums: &[i64; MOST_ITEMS],
) -> Result<(), Memory>
    requires systems { (i : ℕ) → IsItem layout.now i → unsigned_abs (system_at pages.old i) ≤ 2 ^ 61 }
    requires length { length pages.old.system ≡ item_count layout.now }
    requires sums { AreSums (2 ^ 21) sums.now }
    ensures ok { OnOk result (WritesSums layout.now sums.now caller pages.old pages.new out.old.items out.new.items) }
    ensures err { OnErr result (Begins out.old.items out.new.items) }
{
    for number in 0..layout.items() {
        write_sum(out, caller, pages, ItemId { number }, sums[number as usize])?;
    }
    Ok(())
}

/// Adds the sum of an item to its system-wide value: no step is made for 0.
#[inline]
fn write_sum(
    out: &mut Vec<u8>,
    caller: u32,
    pages: &mut Plain,
    item: ItemId,
    sum: i64,
) -> Result<(), Memory>
    requires item { item.number < length pages.old.system }
    requires system { unsigned_abs (system_at pages.old item.number) ≤ 2 ^ 61 }
    requires sum { unsigned_abs sum ≤ 2 ^ 21 }
    ensures system { OnOk result
        (pages.new ≡ with_system pages.old item.number (system_at pages.old item.number +ℤ sum)) }
    ensures lines { OnOk result (out.new.items ≡ out.old.items ++ step_lines caller (to_system item.number sum)) }
    ensures err { OnErr result (Begins out.old.items out.new.items) }
{
    if sum == 0 {
        return Ok(());
    }
    push_event_line(out, caller, &Step::AddS(item, sum))?;
    pages.add_system(item, sum);
    Ok(())
}
