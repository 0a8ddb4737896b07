ghost use Rattle.std.specs.Prelude.{◌≡◌, ℕ, ◌*◌, ◌<◌, ◌≤◌, length, slice_index, slice_index_or, if◌then◌else◌, All};
ghost use Rattle.vms_world.specs.Common.{is_online as tells_online, state_at, IsCpu, IsPlace, IsZone, cell};
ghost use Rattle.vms_world.specs.Common.{place_count, IsValidSize, size_at, most_threshold};
ghost use Rattle.vms_world.specs.Common.{opening_peak as opening_peak_of, largest_on, listed_by_cpu, count_online};
ghost use Rattle.vms_world.specs.Common.{hidden_in, place_threshold as place_threshold_of, with_marks};
ghost use Rattle.vms_world.specs.Common.{zone_mark as zone_mark_of};
ghost use Rattle.vms_hotplug.specs.Settings.{HasPeaks, MayMark, SetsPlace};

use crate::refreshing::is_online;
use arrayvec::ArrayVec;
use vms_base::{CpuId, CpuState, Header, Layout, PlaceId, Row, ZoneSize};
use vms_calc::{Rule, Rules, cover_mark, linux_mark};
use vms_core::State;

/// The thresholds of zones of these sizes, in pages, with so many CPUs online.
pub(crate) fn zone_thresholds<N: Rule, P: Rule>(
    sizes: &[ZoneSize],
    online: u32,
    rules: &Rules<N, P>,
) -> ArrayVec<u32, 16>
    requires few { length sizes.now ≤ 16 }
    requires sizes { All IsValidSize sizes.now }
    requires least_online { 1 ≤ online }
    requires most_online { online ≤ 128 }
    ensures length { length result.items ≡ length sizes.now }
    ensures by_rule { (g : ℕ) → g < length sizes.now →
        N.answers rules.now.normal (size_at sizes.now g) online (slice_index result.items g) }
    ensures least { (g : ℕ) → g < length sizes.now → 1 ≤ slice_index result.items g }
    ensures most { (g : ℕ) → g < length sizes.now → slice_index result.items g ≤ most_threshold }
{
    let mut thresholds = ArrayVec::new();
    for size in sizes {
        thresholds.push(rules.normal(size, online));
    }
    thresholds
}

/// The largest threshold of the zones of a node.
fn node_threshold(layout: &Layout, thresholds: &[u32], node: u32) -> u32
    requires length { length layout.now.zones ≤ length thresholds.now }
    ensures { result ≡ largest_on layout.now thresholds.now node }
{
    let mut largest = 0;
    for (g, zone) in layout.zones().iter().enumerate() {
        if zone.node == node {
            largest = largest.max(thresholds[g]);
        }
    }
    largest
}

/// The threshold of a place, given those of the zones.
fn place_threshold(layout: &Layout, zones: &[u32], place: u32) -> u32
    requires length { length zones.now ≡ length layout.now.zones }
    requires place { IsPlace layout.now place }
    ensures { result ≡ place_threshold_of layout.now zones.now place }
{
    let place = place as usize;
    if place < zones.len() {
        zones[place]
    } else {
        node_threshold(layout, zones, layout.nodes()[place - zones.len()])
    }
}

/// Gives the online CPUs the thresholds of all places, in pages, by those of the zones.
pub(crate) fn set_thresholds(
    thresholds: &mut Row<u32>,
    states: &Row<CpuState>,
    layout: &Layout,
    zones: &[u32],
)
    requires zones { length zones.now ≡ length layout.now.zones }
    requires states { length states.now ≡ layout.now.cpus }
    requires thresholds { length thresholds.old ≡ layout.now.cpus * place_count layout.now }
    ensures { thresholds.new ≡ listed_by_cpu (λ c g. if tells_online (state_at states.now c)
        then place_threshold_of layout.now zones.now g
        else slice_index_or thresholds.old (cell (place_count layout.now) c g) 0)
        layout.now.cpus (place_count layout.now) }
{
    for place in 0..layout.places() {
        set_place(
            thresholds,
            states,
            layout.places(),
            place,
            place_threshold(layout, zones, place),
        );
    }
}

/// Gives the online CPUs a threshold of one of so many places.
fn set_place(
    thresholds: &mut Row<u32>,
    states: &Row<CpuState>,
    places: u32,
    place: u32,
    threshold: u32,
)
    requires place { place < places }
    requires states { length states.now ≤ 128 }
    requires places { places ≤ 32 }
    requires thresholds { length thresholds.old ≡ length states.now * places }
    ensures { SetsPlace states.now places place threshold thresholds.old thresholds.new }
{
    for cpu in 0..states.len() {
        if is_online(states.get(cpu)) {
            thresholds.set(cpu * places as usize + place as usize, threshold);
        }
    }
}

/// Gives each zone the mark, in pages, that covers what the CPUs may hide under these thresholds of the zones.
pub(crate) fn set_marks(pages: &mut State, header: &Header, online: u32, zones: &[u32])
    requires { MayMark header.now online zones.now pages.old }
    ensures { pages.new ≡ with_marks header.now zones.now pages.old }
{
    for zone in 0..header.layout.zones().len() {
        let mark = zone_mark(pages, header, online, zones, zone);
        pages.mark.set(zone, mark);
    }
}

/// The mark of a zone, in pages: Linux's mark, raised where that is needed to cover what the CPUs may hide.
fn zone_mark(pages: &State, header: &Header, online: u32, zones: &[u32], zone: usize) -> u64
    requires may { MayMark header.now online zones.now pages.now }
    requires zone { IsZone header.now.layout zone }
    ensures { result ≡ zone_mark_of header.now zones.now pages.now zone }
{
    let size = header.sizes.get(zone);
    let linux = linux_mark(&size, online, zones[zone]);
    cover_mark(&size, linux, hidden(pages, &header.layout, zone))
}

/// What the CPUs that are online or dead may hide of a zone together, in pages.
fn hidden(pages: &State, layout: &Layout, zone: usize) -> u64
    requires peaks { HasPeaks layout.now pages.now }
    requires zone { IsZone layout.now zone }
    ensures value { result ≡ hidden_in layout.now pages.now zone }
    ensures most { result ≤ 128 * 125 }
{
    let mut sum = 0;
    for number in 0..layout.cpus() {
        let cpu = CpuId { number };
        match pages.cpu_at(cpu) {
            CpuState::Online | CpuState::Dead => sum += opening_peak(pages, layout, cpu, zone),
            CpuState::Absent => {}
        }
    }
    sum
}

/// The largest of a CPU's threshold in a zone and of its differentials there, in pages.
fn opening_peak(pages: &State, layout: &Layout, cpu: CpuId, zone: usize) -> u64
    requires peaks { HasPeaks layout.now pages.now }
    requires cpu { IsCpu layout.now cpu.number }
    requires zone { IsZone layout.now zone }
    ensures value { result ≡ opening_peak_of layout.now pages.now cpu.number zone }
    ensures most { result ≤ most_threshold }
{
    let positions = layout.positions();
    let place = PlaceId {
        number: zone as u32,
    };
    let mut peak = u64::from(pages.threshold_at(layout, cpu, place).t);
    for position in 0..positions {
        let counter = layout.counter(place, position);
        peak = peak.max(pages.diff_at(layout, cpu, counter).unsigned_abs());
    }
    peak
}
