ghost use Rattle.std.specs.Prelude.{◌≡◌, ◌+◌, ◌≤◌, OnOk, IfOk, slice_index_or, unsigned_abs};
ghost use Rattle.vms_calls.specs.Common.{IsCpu, IsCounter, most_volume, eight_zeros, CarriesNothing};
ghost use Rattle.vms_bench.specs.Pages.{Carries, HasLooked, IsOwn, IsTarget, own_of};

use vms_base::{CounterId, CpuId, GroupId, ItemId, Layout, Mode, Overflow, PlaceId};
use vms_words::{CpuPass, PackedDiffs, PageTable, PutDone};

/// What one CPU may change a counter by over a run, in absolute sum.
const MOST_VOLUME: u64 = 1 << 48;

/// A counter, with its place, its group and its item, and the CPU on which it is changed.
#[derive(Clone, Copy, Debug, PartialEq, Eq)]
pub(crate) struct Target {
    pub cpu: CpuId,
    pub counter: CounterId,
    pub place: PlaceId,
    pub group: GroupId,
    pub item: ItemId,
}

impl Target {
    /// A counter of the layout on one of its CPUs.
    pub fn of(layout: &Layout, cpu: CpuId, counter: CounterId) -> Target
        requires cpu { IsCpu layout.now cpu.number }
        requires counter { IsCounter layout.now counter.number }
        ensures target { IsTarget layout.now result }
        ensures cpu { result.cpu ≡ cpu }
    {
        Target {
            cpu,
            counter,
            place: layout.place_of(counter),
            group: layout.group(counter),
            item: layout.item_of(counter),
        }
    }
}

/// Changes a counter on the pass's CPU, and adds what passes the threshold to the global value and to the system-wide
/// one (`mod_zone_page_state` of mm/vmstat.c).
#[inline]
pub(crate) fn change(
    table: &PageTable,
    pass: &mut CpuPass,
    target: &Target,
    delta: i64,
) -> Result<(), Overflow>
    requires target { IsTarget table.now.facts.layout target.now }
    requires own { IsOwn pass.old table.now target.now.cpu }
    requires idle { CarriesNothing table.now.facts.layout (own_of pass.old) }
    ensures own { OnOk result (IsOwn pass.new table.now target.now.cpu) }
    ensures idle { OnOk result (CarriesNothing table.now.facts.layout (own_of pass.new)) }
{
    let cpu = pass.cpu();
    let group = table.layout().group(target.counter);
    let threshold = table.load_threshold(pass, target.place);
    let found = table.load_diffs(pass, cpu, group);
    let amount = exchange(table, pass, target, &found, threshold.t, delta)?;
    carry(table, pass, target, amount);
    Ok(())
}

/// Puts the change into the group, once more where another caller had taken the group, and tells what is carried.
#[inline]
fn exchange(
    table: &PageTable,
    pass: &mut CpuPass,
    target: &Target,
    found: &PackedDiffs,
    threshold: u32,
    delta: i64,
) -> Result<i64, Overflow>
    requires target { IsTarget table.now.facts.layout target.now }
    requires own { IsOwn pass.old table.now target.now.cpu }
    requires looked { HasLooked table.now.facts.layout target.now found.now.values threshold (own_of pass.old) }
    ensures own { OnOk result (IsOwn pass.new table.now target.now.cpu) }
    ensures carries { IfOk result (λ amount.
        Carries table.now.facts.layout target.now.counter.number amount (own_of pass.new)) }
{
    let volume = pass.volume(target.counter);
    let size = delta.unsigned_abs();
    if size > MOST_VOLUME || volume > MOST_VOLUME - size {
        return Err(Overflow { volume, size });
    }
    match table.put(pass, target.counter, found, threshold, delta, Mode::Mod) {
        PutDone::Done(amount) => Ok(amount),
        PutDone::Missed => Ok(exchange_zeros(table, pass, target, threshold, delta)),
    }
}

/// Puts the change into a group that another caller has emptied, and tells what is carried.
fn exchange_zeros(
    table: &PageTable,
    pass: &mut CpuPass,
    target: &Target,
    threshold: u32,
    delta: i64,
) -> i64
    requires target { IsTarget table.now.facts.layout target.now }
    requires own { IsOwn pass.old table.now target.now.cpu }
    requires looked { HasLooked table.now.facts.layout target.now eight_zeros threshold (own_of pass.old) }
    requires room { slice_index_or pass.old.volume target.now.counter.number 0 + unsigned_abs delta ≤ most_volume }
    ensures own { IsOwn pass.new table.now target.now.cpu }
    ensures carries { Carries table.now.facts.layout target.now.counter.number result (own_of pass.new) }
{
    let zeros = PackedDiffs::zeros();
    match table.put(pass, target.counter, &zeros, threshold, delta, Mode::Mod) {
        PutDone::Done(amount) => amount,
        PutDone::Missed => unreachable!(),
    }
}

/// Adds what is carried to the global value and to the system-wide one.
#[inline]
fn carry(table: &PageTable, pass: &mut CpuPass, target: &Target, amount: i64)
    requires target { IsTarget table.now.facts.layout target.now }
    requires own { IsOwn pass.old table.now target.now.cpu }
    requires carries { Carries table.now.facts.layout target.now.counter.number amount (own_of pass.old) }
    ensures own { IsOwn pass.new table.now target.now.cpu }
    ensures idle { CarriesNothing table.now.facts.layout (own_of pass.new) }
{
    if amount != 0 {
        table.add_place(pass, target.counter, amount);
        table.add_system(pass, target.item, amount);
    }
}
