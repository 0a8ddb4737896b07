ghost use Rattle.std.specs.Prelude.{◌≡◌, ◌≢◌, ℕ, suc, ◌+◌, ◌*◌, ◌^◌, ◌<◌, ◌≤◌, length};
ghost use Rattle.vms_calls.specs.Common.{IsCpu, IsPlace, IsZone, IsValidSize, size_at, most_threshold, MayMake};
ghost use Rattle.vms_calls.specs.Common.{mark_steps, rating_steps, threshold_steps, mark_at, mark_sets_at};
ghost use Rattle.vms_calls.specs.Common.{threshold_sets_at, IsControl, SetsMark, pages, state_after, peak_sum};
ghost use Rattle.vms_calls.specs.Common.{most_sets, after};
ghost use Rattle.vms_control.specs.Online.{FoundOnline};
ghost use Rattle.vms_control.specs.SetCounts.{MayStillSet, SetsAtMost, never, once};
ghost use Rattle.vms_seats.specs.Common.{IsFrom, Made};

use vms_base::{CpuId, PlaceId, ZoneSize};
use vms_calc::{cover_mark, linux_mark};
use vms_calls::Chosen;
use vms_words::{Caller, ControlPass, PageTable};

/// Gives a zone a threshold, and the mark that covers what all CPUs may hide then. The mark comes first: a threshold
/// may grow only under a mark that covers it.
pub(crate) fn rate(
    table: &PageTable,
    pass: &mut ControlPass,
    zone: PlaceId,
    size: &ZoneSize,
    found: u64,
    online: &[CpuId],
    chosen: Chosen,
)
    requires table { IsFrom pass.old table.now }
    requires control { IsControl pass.old.seen pass.old.number }
    requires zone { IsZone table.now.facts.layout zone.number }
    requires size { size.now ≡ size_at table.now.facts.sizes zone.number }
    requires valid { IsValidSize size.now }
    requires found { mark_at (state_after table.now.facts pass.old.seen) zone.number ≡ found }
    requires online { FoundOnline table.now.facts online.now }
    requires least { 1 ≤ chosen.threshold }
    requires most { chosen.threshold ≤ most_threshold }
    requires least_usual { 1 ≤ chosen.usual }
    requires usual { chosen.usual ≤ most_threshold }
    requires room { MayStillSet table.now.facts pass.old.seen zone.number }
    ensures made { Made pages pass.new pass.old (rating_steps table.now.facts pass.old.number online.now pass.old.seen
        zone.number found chosen.usual chosen.threshold) }
    ensures sets { SetsAtMost table.now.facts (once zone.number (suc zone.number))
        (once zone.number (suc zone.number)) pass.new.seen pass.old.seen }
{
    pass.is_live();
    let hidden = hidden_under(table, pass, zone, online, chosen.threshold);
    let linux = linux_mark(size, online.len() as u32, chosen.usual);
    mark_zone(table, pass, zone, found, cover_mark(size, linux, hidden));
    set_thresholds(table, pass, zone, online, chosen.threshold);
}

/// What the CPUs that are online or dead may hide of a zone together once these have a threshold there, in pages.
fn hidden_under(
    table: &PageTable,
    pass: &ControlPass,
    zone: PlaceId,
    online: &[CpuId],
    threshold: u32,
) -> u64
    requires table { IsFrom pass.now table.now }
    requires zone { IsZone table.now.facts.layout zone.number }
    requires online { FoundOnline table.now.facts online.now }
    requires most { threshold ≤ most_threshold }
    ensures value { result ≡ peak_sum table.now.facts zone.number
        (after pass.now.number (threshold_steps zone.number threshold online.now) pass.now.seen) }
    ensures most { result ≤ 128 * 125 }
{
    pass.is_live();
    let mut hidden = table.peak_sum(pass, zone);
    for cpu in online {
        hidden += u64::from(threshold).saturating_sub(table.peak(pass, *cpu, zone));
    }
    hidden
}

/// Sets a zone's mark where it is another than the one that was found.
fn mark_zone(table: &PageTable, pass: &mut ControlPass, zone: PlaceId, found: u64, mark: u64)
    requires table { IsFrom pass.old table.now }
    requires control { IsControl pass.old.seen pass.old.number }
    requires sets { mark ≢ found → SetsMark table.now.facts pass.old.seen pass.old.number zone mark }
    requires found { mark_at (state_after table.now.facts pass.old.seen) zone.number ≡ found }
    requires room { mark_sets_at (state_after table.now.facts pass.old.seen) zone.number < most_sets }
    ensures made { Made pages pass.new pass.old (mark_steps zone.number found mark) }
    ensures sets { SetsAtMost table.now.facts never (once zone.number (suc zone.number)) pass.new.seen pass.old.seen }
{
    pass.is_live();
    if mark != found {
        table.set_mark(pass, zone, mark);
    }
}

/// Gives CPUs a threshold of a place, in pages.
pub(crate) fn set_thresholds(
    table: &PageTable,
    pass: &mut ControlPass,
    place: PlaceId,
    online: &[CpuId],
    threshold: u32,
)
    requires table { IsFrom pass.old table.now }
    requires control { IsControl pass.old.seen pass.old.number }
    requires place { IsPlace table.now.facts.layout place.number }
    requires online { FoundOnline table.now.facts online.now }
    requires may { MayMake table.now.facts pass.old.number pass.old.seen
        (threshold_steps place.number threshold online.now) }
    requires room { (c : ℕ) → IsCpu table.now.facts.layout c →
        threshold_sets_at (state_after table.now.facts pass.old.seen) c place.number < most_sets }
    ensures made { Made pages pass.new pass.old (threshold_steps place.number threshold online.now) }
    ensures sets { SetsAtMost table.now.facts (once place.number (suc place.number)) never
        pass.new.seen pass.old.seen }
{
    pass.is_live();
    for cpu in online {
        table.set_threshold(pass, *cpu, place, threshold);
    }
}
