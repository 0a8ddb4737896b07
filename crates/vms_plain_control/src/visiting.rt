ghost use Rattle.std.specs.Prelude.{◌≡◌, ℕ, suc, ◌<◌, ◌≤◌, length};
ghost use Rattle.vms_calls.specs.Common.{IsHeader, IsCpu, IsZone, most_threshold, HasShape, mark_sets_at};
ghost use Rattle.vms_calls.specs.Common.{threshold_sets_at, most_sets, facts_of, Visits, rated_by, choice_of};
ghost use Rattle.vms_calls.specs.Common.{is_spared, mark_at};
ghost use Rattle.vms_calls.specs.declared.choices.Rating.TheVariants.{Refresh};
ghost use Rattle.vms_plain_control.specs.Control.{MakesPart};
ghost use Rattle.vms_plain_control.specs.KnownPeaks.{HasAllPeaks};
ghost use Rattle.vms_plain_control.specs.OnlineCpus.{online_in};
ghost use Rattle.vms_plain_control.specs.RatedPlaces.{VisitsZone};
ghost use Rattle.vms_plain_control.specs.SetCounts.{SetsOnce, SetsOnly};

use crate::Peaks;
use crate::rating::rate;
use vms_base::{Header, PlaceId};
use vms_calc::{Rule, Rules};
use vms_calls::{Rating, choose, spares};
use vms_core::Plain;

/// Looks what was acknowledged of a zone and what its mark is, and gives it the thresholds of the call. Returns the
/// threshold, in pages, or 0 where none was set.
pub(crate) fn visit<N: Rule, P: Rule>(
    pages: &mut Plain,
    peaks: &mut Peaks,
    header: &Header,
    rules: &Rules<N, P>,
    zone: PlaceId,
    online: u32,
    rating: Rating,
) -> u32
    requires header { IsHeader header.now }
    requires shaped { HasShape header.now.layout pages.old }
    requires full { HasAllPeaks header.now.layout peaks.old }
    requires zone { IsZone header.now.layout zone.number }
    requires online { online ≡ length (online_in pages.old) }
    requires least_online { 1 ≤ online }
    requires most_online { online ≤ 128 }
    requires sets { (c : ℕ) → IsCpu header.now.layout c → threshold_sets_at pages.old c zone.number < most_sets }
    requires mark_sets { mark_sets_at pages.old zone.number < most_sets }
    ensures makes { MakesPart header.now (λ base p h steps. Visits (facts_of header.now base) p (online_in pages.old)
        (rated_by rating (P.answers rules.now.pressure) (N.answers rules.now.normal) (facts_of header.now base) p
        (online_in pages.old)) zone.number result h steps)
        pages.old peaks.old pages.new peaks.new }
    ensures places { VisitsZone header.now (choice_of rating (P.answers rules.now.pressure)
        (N.answers rules.now.normal)) (is_spared rating (mark_at pages.old zone.number)) zone.number result
        pages.old peaks.old pages.new peaks.new }
    ensures rest { SetsOnly pages.old pages.new }
    ensures once { SetsOnce header.now.layout zone.number (suc zone.number) pages.old pages.new }
    ensures shaped { HasShape header.now.layout pages.new }
    ensures full { HasAllPeaks header.now.layout peaks.new }
    ensures least { rating ≡ Refresh → 1 ≤ result }
    ensures most { result ≤ most_threshold }
{
    peaks.lower(pages, &header.layout, zone);
    let found = pages.load_mark(zone).mark;
    if spares(rating, found) {
        return 0;
    }
    let size = header.sizes.get(zone.number as usize);
    let chosen = choose(rules, rating, &size, online);
    rate(pages, peaks, header, zone, found, online, chosen);
    chosen.threshold
}
