ghost use Rattle.std.specs.Prelude.{◌≡◌, ◌≤◌, ◌^◌, not, Option};
ghost use Rattle.vms_calls.specs.Common.{CpuId, IsHeader, IsLayout, IsZone, IsWatermarkTest};
ghost use Rattle.vms_plain_pages.specs.Alone.{IsSmallState, CallLeadsAlone};
ghost use Rattle.vms_plain_pages.specs.Verdicts.{free_of, takes_snapshot, verdict_at};

use crate::values::{place_value, snapshot};
use vms_base::{Header, Layout, PlaceId, WaterMark};
use vms_calc::limit;
use vms_calls::Verdict;
use vms_core::Plain;

/// Tests whether a zone has more free pages than a watermark asks for, for a request that may use the zones of its node
/// up to the zone index `most` (`zone_watermark_ok_safe` of mm/page_alloc.c at order 0). Below the zone's drift mark
/// the free pages are a snapshot. Nobody sets the mark meanwhile, so one load tells it.
pub fn watermark_test(
    pages: &Plain,
    header: &Header,
    zone: PlaceId,
    mark: WaterMark,
    most: u32,
) -> Verdict
    requires header { IsHeader header.now }
    requires room { IsSmallState header.now.layout (2 ^ 61) pages.now }
    requires zone { IsZone header.now.layout zone.number }
    requires most { most ≤ 3 }
    ensures made { (who : Option CpuId) →
        CallLeadsAlone who (λ steps. IsWatermarkTest header.now zone mark most steps result)
        pages.now pages.now }
    ensures answer { result ≡ verdict_at header.now zone.number mark most pages.now }
{
    let limit = limit(header, zone, mark, most);
    let (free, fast) = free_pages(pages, &header.layout, zone);
    Verdict {
        yes: limit < free,
        free,
        fast,
    }
}

/// The free pages of a zone that a test rests on, and whether they are no snapshot.
fn free_pages(pages: &Plain, layout: &Layout, zone: PlaceId) -> (u64, bool)
    requires layout { IsLayout layout.now }
    requires room { IsSmallState layout.now (2 ^ 61) pages.now }
    requires zone { IsZone layout.now zone.number }
    ensures free { result.0 ≡ free_of layout.now pages.now zone.number }
    ensures fast { result.1 ≡ not (takes_snapshot layout.now pages.now zone.number) }
{
    let counter = layout.counter(zone, 0);
    let mark = pages.load_mark(zone).mark;
    let value = place_value(pages, counter);
    if mark != 0 && value < mark {
        (snapshot(pages, layout, counter), false)
    } else {
        (value, true)
    }
}
