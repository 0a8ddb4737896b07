ghost use Rattle.std.specs.Prelude.{◌≡◌, ◌+◌, ◌-◌, ℕ, ◌<◌, ◌≤◌, List, length, slice_index_or};
ghost use Rattle.vms_calls.specs.Common.{HasOnline, IsHeader, IsCpu, IsPlace, place_count, most_threshold, HasShape};
ghost use Rattle.vms_calls.specs.Common.{threshold_sets_at, most_sets, facts_of, ByNormal, Rates, Refreshes, IsNode};
ghost use Rattle.vms_calls.specs.Common.{IsZone, node_number, VisitsEach, largest_on, numbers_below, threshold_steps};
ghost use Rattle.vms_calls.specs.Common.{in_turn};
ghost use Rattle.vms_plain_control.specs.Control.{ControlMakes, MakesPart};
ghost use Rattle.vms_plain_control.specs.KnownPeaks.{HasAllPeaks};
ghost use Rattle.vms_plain_control.specs.OnlineCpus.{online_in};
ghost use Rattle.vms_plain_control.specs.RatedPlaces.{GetsThreshold, KeepsMark, KeepsThresholds, RatesZone};
ghost use Rattle.vms_plain_control.specs.RatedPlaces.{RefreshesPlaces};
ghost use Rattle.vms_plain_control.specs.SetCounts.{SetAtMost, SetsEachAtMost, SetsOnce, SetsOnly};

use crate::Peaks;
use crate::online::{count_online, set_thresholds};
use crate::visiting::visit;
use arrayvec::ArrayVec;
use vms_base::{Header, PlaceId};
use vms_calc::{Rule, Rules};
use vms_calls::{Rating, node_threshold};
use vms_core::Plain;

/// Gives each zone its normal threshold, with a mark that covers it, and then each node the largest of its zones
/// (`refresh_zone_stat_thresholds` of mm/vmstat.c). Marks may come down.
pub fn refresh<N: Rule, P: Rule>(
    pages: &mut Plain,
    peaks: &mut Peaks,
    header: &Header,
    rules: &Rules<N, P>,
)
    requires header { IsHeader header.now }
    requires shaped { HasShape header.now.layout pages.old }
    requires full { HasAllPeaks header.now.layout peaks.old }
    requires some_online { HasOnline header.now.layout pages.old.cpu }
    requires room { SetAtMost header.now.layout (most_sets - 1) pages.old }
    ensures makes { ControlMakes header.now (λ base p h steps. Refreshes (facts_of header.now base)
        (N.answers rules.now.normal) p h steps)
        pages.old peaks.old pages.new peaks.new }
    ensures places { RefreshesPlaces header.now (N.answers rules.now.normal) pages.old peaks.old pages.new peaks.new }
    ensures rest { SetsOnly pages.old pages.new }
    ensures sets { SetsEachAtMost header.now.layout 1 pages.old pages.new }
    ensures shaped { HasShape header.now.layout pages.new }
    ensures full { HasAllPeaks header.now.layout peaks.new }
{
    rules.tells();
    let thresholds = visit_all(pages, peaks, header, rules);
    set_nodes(pages, header, thresholds.as_slice());
}

/// Visits every zone. Returns the thresholds that they got, in pages.
fn visit_all<N: Rule, P: Rule>(
    pages: &mut Plain,
    peaks: &mut Peaks,
    header: &Header,
    rules: &Rules<N, P>,
) -> ArrayVec<u32, 16>
    requires header { IsHeader header.now }
    requires shaped { HasShape header.now.layout pages.old }
    requires full { HasAllPeaks header.now.layout peaks.old }
    requires some_online { HasOnline header.now.layout pages.old.cpu }
    requires room { SetAtMost header.now.layout (most_sets - 1) pages.old }
    ensures makes { MakesPart header.now (λ base p h steps. VisitsEach (facts_of header.now base) p
        (online_in pages.old)
        (Rates (facts_of header.now base) p (online_in pages.old) (ByNormal (N.answers rules.now.normal)))
        (numbers_below (length header.now.layout.zones)) result.items h steps)
        pages.old peaks.old pages.new peaks.new }
    ensures length { length result.items ≡ length header.now.layout.zones }
    ensures least { (g : ℕ) → g < length header.now.layout.zones → 1 ≤ slice_index_or result.items g 0 }
    ensures most { (g : ℕ) → g < length header.now.layout.zones → slice_index_or result.items g 0 ≤ most_threshold }
    ensures zones { (g : ℕ) → IsZone header.now.layout g →
        RatesZone header.now (ByNormal (N.answers rules.now.normal)) g (slice_index_or result.items g 0)
        pages.old peaks.old pages.new peaks.new }
    ensures nodes { (f : ℕ) → IsNode header.now.layout f → KeepsThresholds header.now.layout f pages.old pages.new }
    ensures rest { SetsOnly pages.old pages.new }
    ensures once { SetsOnce header.now.layout 0 (length header.now.layout.zones) pages.old pages.new }
    ensures shaped { HasShape header.now.layout pages.new }
    ensures full { HasAllPeaks header.now.layout peaks.new }
{
    let layout = &header.layout;
    let online = count_online(pages, layout);
    let mut thresholds = ArrayVec::new();
    for zone in 0..layout.zones().len() {
        let zone = PlaceId {
            number: zone as u32,
        };
        thresholds.push(visit(pages, peaks, header, rules, zone, online, Rating::Refresh));
    }
    thresholds
}

/// Gives each node the largest threshold of its zones, in pages.
fn set_nodes(pages: &mut Plain, header: &Header, thresholds: &[u32])
    requires header { IsHeader header.now }
    requires shaped { HasShape header.now.layout pages.old }
    requires sets { (c g : ℕ) → IsCpu header.now.layout c → length header.now.layout.zones ≤ g →
        IsPlace header.now.layout g → threshold_sets_at pages.old c g < most_sets }
    requires length { length thresholds.now ≡ length header.now.layout.zones }
    requires least { (g : ℕ) → g < length header.now.layout.zones → 1 ≤ slice_index_or thresholds.now g 0 }
    requires most { (g : ℕ) → g < length header.now.layout.zones → slice_index_or thresholds.now g 0 ≤ most_threshold }
    ensures makes { (peaks : List ℕ) → MakesPart header.now (λ base p h steps. steps ≡ in_turn
        (λ i node. threshold_steps (length header.now.layout.zones + i)
        (largest_on header.now.layout thresholds.now node) (online_in pages.old)) 0 header.now.layout.nodes)
        pages.old peaks pages.new peaks }
    ensures zones { (g : ℕ) → IsZone header.now.layout g → KeepsThresholds header.now.layout g pages.old pages.new }
    ensures marks { (g : ℕ) → KeepsMark g pages.old pages.new }
    ensures nodes { (f : ℕ) → IsNode header.now.layout f → GetsThreshold header.now.layout f
        (largest_on header.now.layout thresholds.now (node_number header.now.layout (record { number = f })))
        pages.old pages.new }
    ensures rest { SetsOnly pages.old pages.new }
    ensures once { SetsOnce header.now.layout (length header.now.layout.zones) (place_count header.now.layout)
        pages.old pages.new }
    ensures shaped { HasShape header.now.layout pages.new }
{
    let layout = &header.layout;
    let zones = layout.zones().len();
    for number in zones as u32..layout.places() {
        let node = layout.nodes()[number as usize - zones];
        let threshold = node_threshold(layout, thresholds, node);
        set_thresholds(pages, layout, PlaceId { number }, threshold);
    }
}
