ghost use Rattle.std.specs.Prelude.{◌≡◌, ◌≤◌, ◌≤ℤ◌, ◌+ℤ◌, pos, unsigned_abs};
ghost use Rattle.vms_world.specs.Common.{IsCounter, IsCpu, most_threshold, IsOpening, diff_at, value_at, differentials};
ghost use Rattle.vms_world.specs.Common.{most_in_base, IsEvent, word_at, sum_of_words, most_batch, count_at, local_at};
ghost use Rattle.vms_world.specs.Common.{locals};
ghost use Rattle.vms_event_core.specs.Words.{HasShape};
ghost use Rattle.vms_report.specs.Rooms.{IsSmallCounter};

use vms_base::{CounterId, CpuId, EventId, Layout};
use vms_core::State;
use vms_event_core::EventState;
use vms_pcpu_core::PcpuState;

/// How many events are counted.
const EVENTS: u32 = 8;

/// The global value of a counter and the differentials of all CPUs, in pages.
pub(crate) fn page_total(pages: &State, layout: &Layout, counter: CounterId) -> i64
    requires opening { IsOpening layout.now pages.now }
    requires counter { IsCounter layout.now counter.number }
    ensures { result ≡ value_at pages.now counter.number +ℤ differentials layout.now pages.now counter.number }
{
    let mut total = pages.value_at(counter);
    for number in 0..layout.cpus() {
        total += differential(pages, layout, CpuId { number }, counter);
    }
    total
}

#[inline]
fn differential(pages: &State, layout: &Layout, cpu: CpuId, counter: CounterId) -> i64
    requires opening { IsOpening layout.now pages.now }
    requires cpu { IsCpu layout.now cpu.number }
    requires counter { IsCounter layout.now counter.number }
    ensures value { result ≡ diff_at pages.now cpu.number counter.number }
    ensures bound { unsigned_abs result ≤ most_threshold }
{
    pages.diff_at(layout, cpu, counter)
}

/// What all CPUs have counted of an event.
pub(crate) fn event_total(events: &EventState, layout: &Layout, event: EventId) -> i64
    requires shaped { HasShape layout.now events.now }
    requires event { IsEvent event.number }
    requires most { sum_of_words layout.now events.now event.number ≤ℤ pos most_in_base }
    ensures { result ≡ sum_of_words layout.now events.now event.number }
{
    let mut total = 0;
    for number in 0..layout.cpus() {
        total += word(events, layout, CpuId { number }, event);
    }
    total as i64
}

#[inline]
fn word(events: &EventState, layout: &Layout, cpu: CpuId, event: EventId) -> u64
    requires shaped { HasShape layout.now events.now }
    requires cpu { IsCpu layout.now cpu.number }
    requires event { IsEvent event.number }
    ensures { result ≡ word_at events.now cpu.number event.number }
{
    events.words.get(cpu.number as usize * EVENTS as usize + event.number as usize)
}

/// The shared part of a counter and the local parts of all CPUs.
pub(crate) fn counter_total(counters: &PcpuState, layout: &Layout, counter: usize) -> i64
    requires { IsSmallCounter layout.now counters.now counter }
    ensures { result ≡ count_at counters.now counter +ℤ locals layout.now counters.now counter }
{
    let mut total = counters.count.get(counter);
    for number in 0..layout.cpus() {
        total += local(counters, layout, CpuId { number }, counter);
    }
    total
}

#[inline]
pub(crate) fn local(counters: &PcpuState, layout: &Layout, cpu: CpuId, counter: usize) -> i64
    requires room { IsSmallCounter layout.now counters.now counter }
    requires cpu { IsCpu layout.now cpu.number }
    ensures value { result ≡ local_at counters.now cpu.number counter }
    ensures bound { unsigned_abs result ≤ most_batch }
{
    let _length = counters.local.len();
    let width = counters.batch.len();
    let at = cpu.number as usize * width + counter;
    counters.local.get(at)
}
