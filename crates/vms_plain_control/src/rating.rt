ghost use Rattle.std.specs.Prelude.{◌≡◌, ℕ, ◌^◌, ◌<◌, ◌≤◌, length};
ghost use Rattle.vms_calls.specs.Common.{IsHeader, IsCpu, IsZone, most_threshold, HasShape, mark_at, mark_sets_at};
ghost use Rattle.vms_calls.specs.Common.{threshold_sets_at, most_sets};
ghost use Rattle.vms_plain_control.specs.KnownPeaks.{HasAllPeaks};
ghost use Rattle.vms_plain_control.specs.OnlineCpus.{marked, online_in, peaks_raised, rated};

use crate::Peaks;
use crate::online::set_thresholds;
use vms_base::{Header, PlaceId};
use vms_calc::{cover_mark, linux_mark};
use vms_calls::Chosen;
use vms_core::Plain;

/// Gives a zone a threshold, and the mark that covers what all CPUs may hide then. The mark comes first: a threshold
/// may grow only under a mark that covers it.
pub(crate) fn rate(
    pages: &mut Plain,
    peaks: &mut Peaks,
    header: &Header,
    zone: PlaceId,
    found: u64,
    online: u32,
    chosen: Chosen,
)
    requires header { IsHeader header.now }
    requires shaped { HasShape header.now.layout pages.old }
    requires full { HasAllPeaks header.now.layout peaks.old }
    requires zone { IsZone header.now.layout zone.number }
    requires found { found ≡ mark_at pages.old zone.number }
    requires online { online ≡ length (online_in pages.old) }
    requires least_online { 1 ≤ online }
    requires most_online { online ≤ 128 }
    requires least { 1 ≤ chosen.threshold }
    requires most { chosen.threshold ≤ most_threshold }
    requires usual { chosen.usual ≤ most_threshold }
    requires sets { (c : ℕ) → IsCpu header.now.layout c → threshold_sets_at pages.old c zone.number < most_sets }
    requires mark_sets { mark_sets_at pages.old zone.number < most_sets }
    ensures pages { pages.new ≡ rated header.now zone.number chosen.usual chosen.threshold pages.old peaks.old }
    ensures peaks { peaks.new
        ≡ peaks_raised header.now.layout zone.number chosen.threshold
        (online_in pages.old) peaks.old }
    ensures full { HasAllPeaks header.now.layout peaks.new }
{
    let size = header.sizes.get(zone.number as usize);
    peaks.raise(pages, &header.layout, zone, chosen.threshold);
    let linux = linux_mark(&size, online, chosen.usual);
    let mark = cover_mark(&size, linux, peaks.hidden(pages, &header.layout, zone));
    mark_zone(pages, zone, found, mark);
    set_thresholds(pages, &header.layout, zone, chosen.threshold);
}

/// Sets a zone's mark where it is another than the one that was found.
fn mark_zone(pages: &mut Plain, zone: PlaceId, found: u64, mark: u64)
    requires zone { zone.number < length pages.old.mark }
    requires found { found ≡ mark_at pages.old zone.number }
    requires below { mark < 2 ^ 43 }
    requires sets { mark_sets_at pages.old zone.number < most_sets }
    ensures { pages.new ≡ marked zone.number mark pages.old }
{
    if mark != found {
        pages.set_mark(zone, mark);
    }
}
