ghost use Rattle.std.specs.Prelude.{◌≡◌, ℕ, suc, ◌+◌, ◌<◌, ◌≤◌, List, length, slice_index_or};
ghost use Rattle.vms_calls.specs.Common.{IsPlace, place_count, most_threshold, in_turn, ByNormal, Rates, Refreshes};
ghost use Rattle.vms_calls.specs.Common.{VisitsEach, largest_on, numbers_below, threshold_steps, Step, IsControl};
ghost use Rattle.vms_calls.specs.Common.{pages};
ghost use Rattle.vms_control.specs.Online.{FoundOnline};
ghost use Rattle.vms_control.specs.SetCounts.{HasSetsLeft, MayStillSet, SetsAtMost, SetsOnceMore, never, once};
ghost use Rattle.vms_control.specs.SettledMarks.{SettlesAll};
ghost use Rattle.vms_control.specs.Unladen.{StaysUnladen};
ghost use Rattle.vms_seats.specs.Common.{IsFrom, Made};

use crate::online::load_online;
use crate::rating::set_thresholds;
use crate::visiting::visit;
use arrayvec::ArrayVec;
use vms_base::{CpuId, Header, PlaceId};
use vms_calc::{Rule, Rules};
use vms_calls::{Rating, control_passes_know_by_own_steps, node_threshold};
use vms_words::{Caller, ControlPass, PageTable};

/// Gives each zone its normal threshold, under a mark that covers it, and then each node the largest of its zones
/// (`refresh_zone_stat_thresholds` of mm/vmstat.c). CPUs that are not online keep theirs.
///
/// Linux sets a zone's mark after its thresholds, and leaves an older mark where the thresholds need none. Here the
/// mark comes first, and it comes down where CPUs acknowledged smaller thresholds or became absent. At every moment
/// each mark covers what the CPUs may hide of its zone by the thresholds that they may still be using: this holds of
/// every legal history, and so in the middle of this call too.
///
/// Where no CPU is dead and each CPU that is online was found to have acknowledged the newest threshold of a zone, the
/// refresh leaves Linux's mark, raised to cover the larger of the old and the new threshold of each of these CPUs, in
/// sum.
///
/// `PageTable::most_sets` has to be below 2,000,000, and grows by at most 1.
pub fn refresh_thresholds<N: Rule, P: Rule>(
    table: &PageTable,
    pass: &mut ControlPass,
    header: &Header,
    rules: &Rules<N, P>,
)
    requires table { IsFrom pass.old table.now }
    requires sizes { header.now.sizes ≡ table.now.facts.sizes }
    requires room { HasSetsLeft table.now.facts pass.old.seen }
    ensures made { (steps : List Step) × Refreshes table.now.facts (N.answers rules.now.normal) pass.old.number
        pass.old.seen steps × Made pages pass.new pass.old steps }
    ensures marks { SettlesAll table.now.facts (N.answers rules.now.normal) pass.new pass.old }
    ensures carries { StaysUnladen table.now.facts pass.new pass.old }
    ensures sets { SetsOnceMore table.now.facts pass.new.seen pass.old.seen }
{
    // What a pass computed from peaks stands, whatever others did meanwhile.
    control_passes_know_by_own_steps();
    let online = load_online(table, pass);
    let thresholds = visit_all(table, pass, header, rules, online.as_slice());
    set_nodes(table, pass, online.as_slice(), thresholds.as_slice());
}

/// Visits every zone. Returns the thresholds that they got, in pages.
fn visit_all<N: Rule, P: Rule>(
    table: &PageTable,
    pass: &mut ControlPass,
    header: &Header,
    rules: &Rules<N, P>,
    online: &[CpuId],
) -> ArrayVec<u32, 16>
    requires table { IsFrom pass.old table.now }
    requires sizes { header.now.sizes ≡ table.now.facts.sizes }
    requires online { FoundOnline table.now.facts online.now }
    requires room { IsControl pass.old.seen pass.old.number → (g : ℕ) → IsPlace table.now.facts.layout g →
        MayStillSet table.now.facts pass.old.seen g }
    ensures made { (steps : List Step) × VisitsEach table.now.facts pass.old.number online.now
        (Rates table.now.facts pass.old.number online.now (ByNormal (N.answers rules.now.normal)))
        (numbers_below (length table.now.facts.layout.zones)) result.items pass.old.seen steps
        × Made pages pass.new pass.old steps }
    ensures control { IsControl pass.old.seen pass.old.number }
    ensures sets { SetsAtMost table.now.facts (once 0 (length table.now.facts.layout.zones))
        (once 0 (length table.now.facts.layout.zones)) pass.new.seen pass.old.seen }
    ensures length { length result.items ≡ length table.now.facts.layout.zones }
    ensures least { (g : ℕ) → g < length table.now.facts.layout.zones → 1 ≤ slice_index_or result.items g 0 }
    ensures most { (g : ℕ) → g < length table.now.facts.layout.zones →
        slice_index_or result.items g 0 ≤ most_threshold }
{
    pass.is_live();
    control_passes_know_by_own_steps();
    let mut thresholds = ArrayVec::new();
    for zone in 0..table.layout().zones().len() {
        let zone = PlaceId {
            number: zone as u32,
        };
        thresholds.push(visit(table, pass, header, rules, zone, online, Rating::Refresh));
    }
    thresholds
}

/// Gives each node the largest threshold of its zones, in pages.
fn set_nodes(table: &PageTable, pass: &mut ControlPass, online: &[CpuId], thresholds: &[u32])
    requires table { IsFrom pass.old table.now }
    requires control { IsControl pass.old.seen pass.old.number }
    requires online { FoundOnline table.now.facts online.now }
    requires room { (g : ℕ) → length table.now.facts.layout.zones ≤ g → IsPlace table.now.facts.layout g →
        MayStillSet table.now.facts pass.old.seen g }
    requires length { length thresholds.now ≡ length table.now.facts.layout.zones }
    requires least { (g : ℕ) → g < length table.now.facts.layout.zones → 1 ≤ slice_index_or thresholds.now g 0 }
    requires most { (g : ℕ) → g < length table.now.facts.layout.zones →
        slice_index_or thresholds.now g 0 ≤ most_threshold }
    ensures made { Made pages pass.new pass.old (in_turn
        (λ i node. threshold_steps (length table.now.facts.layout.zones + i)
        (largest_on table.now.facts.layout thresholds.now node) online.now) 0 table.now.facts.layout.nodes) }
    ensures sets { SetsAtMost table.now.facts
        (once (length table.now.facts.layout.zones) (place_count table.now.facts.layout)) never
        pass.new.seen pass.old.seen }
{
    pass.is_live();
    let layout = table.layout();
    let zones = layout.zones().len();
    for number in zones as u32..layout.places() {
        let node = layout.nodes()[number as usize - zones];
        let threshold = node_threshold(layout, thresholds, node);
        set_thresholds(table, pass, PlaceId { number }, online, threshold);
    }
}
