ghost use Rattle.std.specs.Prelude.{◌≡◌, ℕ, ◌*◌, ◌<◌, ◌≤◌, ◌^◌, ◌↔◌, length, IsTrue, Option, unsigned_abs};
ghost use Rattle.vms_calls.specs.Common.{CpuId, Online, is_online as tells_online, state_at, IsCounter, IsCpu};
ghost use Rattle.vms_calls.specs.Common.{IsLayout, most_threshold, counters_of, diff_at, system_at, value_at};
ghost use Rattle.vms_calls.specs.Common.{sum_below, IsPlaceValue, IsSnapshot, IsSystemValue, at_least_zero};
ghost use Rattle.vms_plain_pages.specs.Alone.{IsSmallState, CallLeadsAlone};
ghost use Rattle.vms_plain_pages.specs.Values.{online_diff, snapshot_of};

use vms_base::{CounterId, CpuId, CpuState, ItemId, Layout};
use vms_core::Plain;

/// The global value of a counter, in pages, and 0 where it is negative (`zone_page_state` of include/linux/vmstat.h and
/// `node_page_state_pages` of mm/vmstat.c).
#[inline]
pub fn place_value(pages: &Plain, counter: CounterId) -> u64
    requires { counter.number < counters_of pages.now }
    ensures made { (who : Option CpuId) →
        CallLeadsAlone who (λ steps. IsPlaceValue counter steps result) pages.now pages.now }
    ensures answer { result ≡ at_least_zero (value_at pages.now counter.number) }
{
    clamped(pages.load_place(counter))
}

/// The system-wide value of an item, in pages, and 0 where it is negative (`global_zone_page_state` and
/// `global_node_page_state_pages` of include/linux/vmstat.h).
#[inline]
pub fn system_value(pages: &Plain, item: ItemId) -> u64
    requires { item.number < length pages.now.system }
    ensures made { (who : Option CpuId) →
        CallLeadsAlone who (λ steps. IsSystemValue item steps result) pages.now pages.now }
    ensures answer { result ≡ at_least_zero (system_at pages.now item.number) }
{
    clamped(pages.load_system(item))
}

/// The global value of a counter with what the online CPUs have not folded yet, in pages, and 0 where that is negative
/// (`zone_page_state_snapshot` of include/linux/vmstat.h; the same of a node's counter).
pub fn snapshot(pages: &Plain, layout: &Layout, counter: CounterId) -> u64
    requires room { IsSmallState layout.now (2 ^ 61) pages.now }
    requires counter { IsCounter layout.now counter.number }
    ensures made { (who : Option CpuId) →
        CallLeadsAlone who (λ steps. IsSnapshot layout.now counter steps result)
        pages.now pages.now }
    ensures answer { result ≡ snapshot_of layout.now pages.now counter.number }
{
    let hidden = hidden(pages, layout, counter);
    clamped(pages.load_place(counter) + hidden)
}

/// What the online CPUs have not folded yet of a counter, in pages.
fn hidden(pages: &Plain, layout: &Layout, counter: CounterId) -> i64
    requires room { IsSmallState layout.now (2 ^ 61) pages.now }
    requires counter { IsCounter layout.now counter.number }
    ensures value { result ≡ sum_below (λ c. online_diff pages.now c counter.number) layout.now.cpus }
    ensures bound { unsigned_abs result ≤ 128 * most_threshold }
    ensures is_layout { IsLayout layout.now }
{
    // Where all CPUs are online, which is most often so, no CPU's state is looked at for its differential.
    if are_online(pages.state().cpu.as_slice()) {
        hidden_by_all(pages, layout, counter)
    } else {
        hidden_by_online(pages, layout, counter)
    }
}

/// Whether all CPUs are online by these states. Each state is looked at with no branch, which takes less than half of
/// what it takes to stop at the first CPU that isn't online.
#[inline]
fn are_online(states: &[CpuState]) -> bool
    ensures { IsTrue result ↔ ((c : ℕ) → c < length states.now → state_at states.now c ≡ Online) }
{
    let mut marks = 0;
    for state in states {
        marks |= mark_of(*state);
    }
    marks == 0
}

/// 0 for a CPU that is online, and no other number for it.
#[inline]
fn mark_of(state: CpuState) -> u8
    ensures { (result ≡ 0) ↔ (state ≡ Online) }
{
    state as u8
}

#[inline]
fn is_online(state: CpuState) -> bool
    ensures { result ≡ tells_online state }
{
    match state {
        CpuState::Online => true,
        CpuState::Dead | CpuState::Absent => false,
    }
}

/// The differentials of all CPUs together, in pages.
fn hidden_by_all(pages: &Plain, layout: &Layout, counter: CounterId) -> i64
    requires room { IsSmallState layout.now (2 ^ 61) pages.now }
    requires counter { IsCounter layout.now counter.number }
    ensures value { result ≡ sum_below (λ c. diff_at pages.now c counter.number) layout.now.cpus }
    ensures bound { unsigned_abs result ≤ 128 * most_threshold }
    ensures is_layout { IsLayout layout.now }
{
    let mut sum = 0;
    for number in 0..layout.cpus() {
        sum += pages.state().diff_at(layout, CpuId { number }, counter);
    }
    sum
}

/// The differentials of the online CPUs together, in pages.
fn hidden_by_online(pages: &Plain, layout: &Layout, counter: CounterId) -> i64
    requires room { IsSmallState layout.now (2 ^ 61) pages.now }
    requires counter { IsCounter layout.now counter.number }
    ensures value { result ≡ sum_below (λ c. online_diff pages.now c counter.number) layout.now.cpus }
    ensures bound { unsigned_abs result ≤ 128 * most_threshold }
    ensures is_layout { IsLayout layout.now }
{
    let mut sum = 0;
    for number in 0..layout.cpus() {
        sum += online_differential(pages, layout, CpuId { number }, counter);
    }
    sum
}

/// The differential of a CPU that is online, in pages, and 0 of any other CPU.
#[inline]
fn online_differential(pages: &Plain, layout: &Layout, cpu: CpuId, counter: CounterId) -> i64
    requires room { IsSmallState layout.now (2 ^ 61) pages.now }
    requires cpu { IsCpu layout.now cpu.number }
    requires counter { IsCounter layout.now counter.number }
    ensures value { result ≡ online_diff pages.now cpu.number counter.number }
    ensures bound { unsigned_abs result ≤ most_threshold }
{
    if is_online(pages.load_state(cpu)) {
        pages.state().diff_at(layout, cpu, counter)
    } else {
        0
    }
}

#[inline]
fn clamped(pages: i64) -> u64
    ensures { result ≡ at_least_zero pages }
{
    pages.max(0) as u64
}
