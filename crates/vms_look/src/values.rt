ghost use Rattle.std.specs.Prelude.{◌≡◌, ◌≤◌, ◌∷◌, [], List, unsigned_abs};
ghost use Rattle.vms_calls.specs.Common.{is_online as tells_online, IsCounter, IsCpu, IsItem, IsPlaceValue, IsSnapshot};
ghost use Rattle.vms_calls.specs.Common.{IsSystemValue, at_least_zero, Step, pages};
ghost use Rattle.vms_look.specs.Looking.{HasLooked};
ghost use Rattle.vms_look.specs.SnapshotTotals.{SumsTruly};
ghost use Rattle.vms_look.specs.Truth.{LoadsTruly, SystemLoadsTruly};
ghost use Rattle.vms_seats.specs.Common.{IsFrom, Made};

use vms_base::{CounterId, CpuId, CpuState, ItemId};
use vms_words::{Caller, PageTable};

/// The global value of a counter, in pages, and 0 where it is negative (`zone_page_state` of include/linux/vmstat.h and
/// `node_page_state_pages` of mm/vmstat.c). It is as near the counter's true total at the moment of its load as the CPUs
/// can hide and as is in flight.
#[inline]
pub fn place_value<P: Caller>(table: &PageTable, pass: &mut P, counter: CounterId) -> u64
    requires table { IsFrom (P.pass pass.old) table.now }
    requires counter { IsCounter table.now.facts.layout counter.number }
    ensures made { (steps : List Step) × IsPlaceValue counter steps result
        × Made pages (P.pass pass.new) (P.pass pass.old) steps }
    ensures truly { LoadsTruly (P.pass pass.new) (P.pass pass.old) counter result }
    ensures volume { P.volume pass.new ≡ P.volume pass.old }
{
    clamped(table.load_place(pass, counter))
}

/// The system-wide value of an item, in pages, and 0 where it is negative (`global_zone_page_state` and
/// `global_node_page_state_pages` of include/linux/vmstat.h). It is as near the item's true total at the moment of its
/// load as the CPUs can hide of it and as is in flight of it.
#[inline]
pub fn system_value<P: Caller>(table: &PageTable, pass: &mut P, item: ItemId) -> u64
    requires table { IsFrom (P.pass pass.old) table.now }
    requires item { IsItem table.now.facts.layout item.number }
    ensures made { (steps : List Step) × IsSystemValue item steps result
        × Made pages (P.pass pass.new) (P.pass pass.old) steps }
    ensures truly { SystemLoadsTruly (P.pass pass.new) (P.pass pass.old) item result }
    ensures volume { P.volume pass.new ≡ P.volume pass.old }
{
    clamped(table.load_system(pass, item))
}

/// The global value of a counter with what the CPUs have not folded yet that are found online, in pages, and 0 where
/// that is negative (`zone_page_state_snapshot` of include/linux/vmstat.h; the same of a node's counter). The global
/// value is loaded first, and then CPU after CPU, so it need not be the value at any one moment.
///
/// Whatever others do meanwhile, the sum with what callers carry and what dead CPUs hide at the load of the global
/// value is off from the counter's true total then by at most what moves at the CPUs found online, each until its look.
/// So it is exact where nothing moves. It is off by at most what these CPUs may hide then and at their looks, 125 pages
/// each at most. What is returned is as near the true total as the value, but for what they may hide at their looks.
pub fn snapshot<P: Caller>(table: &PageTable, pass: &mut P, counter: CounterId) -> u64
    requires table { IsFrom (P.pass pass.old) table.now }
    requires counter { IsCounter table.now.facts.layout counter.number }
    ensures made { (steps : List Step) × IsSnapshot table.now.facts.layout counter steps result
        × Made pages (P.pass pass.new) (P.pass pass.old) steps }
    ensures truly { SumsTruly (P.pass pass.new) (P.pass pass.old) counter result }
    ensures volume { P.volume pass.new ≡ P.volume pass.old }
{
    pass.is_live();
    let mut sum = table.load_place(pass, counter);
    for number in 0..table.layout().cpus() {
        sum += hidden(table, pass, CpuId { number }, counter);
    }
    clamped(sum)
}

/// The differential of a CPU that is found online, in pages, and 0 of any other CPU.
#[inline]
fn hidden<P: Caller>(table: &PageTable, pass: &mut P, cpu: CpuId, counter: CounterId) -> i64
    requires table { IsFrom (P.pass pass.old) table.now }
    requires cpu { IsCpu table.now.facts.layout cpu.number }
    requires counter { IsCounter table.now.facts.layout counter.number }
    ensures made { HasLooked (P.pass pass.new) (P.pass pass.old) counter cpu result }
    ensures volume { P.volume pass.new ≡ P.volume pass.old }
    ensures bound { unsigned_abs result ≤ 128 }
{
    pass.is_live();
    if is_online(table.load_state(pass, cpu)) {
        let group = table.layout().group(counter);
        let found = table.load_diffs(pass, cpu, group);
        found.entry(counter.number % 8)
    } else {
        0
    }
}

#[inline]
fn is_online(state: CpuState) -> bool
    ensures { result ≡ tells_online state }
{
    match state {
        CpuState::Online => true,
        CpuState::Dead | CpuState::Absent => false,
    }
}

/// A number of pages as a caller is told it: 0 where it is negative.
#[inline]
pub(crate) fn clamped(pages: i64) -> u64
    ensures { result ≡ at_least_zero pages }
{
    pages.max(0) as u64
}
