ghost use Rattle.std.specs.Prelude.{◌≡◌, ◌≤◌, ◌^◌, if◌then◌else◌, is_some, None, Option};
ghost use Rattle.vms_calls.specs.Common.{CpuId, area_at, areas_from, areas_of, IsHeader, IsZone, IsOrderTest, has_room};
ghost use Rattle.vms_calls.specs.Common.{area_index};
ghost use Rattle.vms_plain_pages.specs.Alone.{IsSmallState, CallLeadsAlone};
ghost use Rattle.vms_plain_pages.specs.Orders.{block_found, order_verdict_at};

use crate::values::snapshot;
use crate::watermarks::watermark_test;
use vms_base::{Header, PlaceId, WaterMark};
use vms_calc::{item_index, limit};
use vms_calls::OrderVerdict;
use vms_core::Plain;

/// Tests whether a zone has more free pages than a watermark asks for and, above order 0, a free block of `2^order`
/// pages or more (`__zone_watermark_ok` of mm/page_alloc.c). Blocks are looked for in the zone items `area1` to
/// `area10` that the header declares, and only where more pages than the watermark asks for are left once all pages of
/// a block but one are taken off.
pub fn order_test(
    pages: &Plain,
    header: &Header,
    zone: PlaceId,
    mark: WaterMark,
    most: u32,
    order: u32,
) -> OrderVerdict
    requires header { IsHeader header.now }
    requires room { IsSmallState header.now.layout (2 ^ 61) pages.now }
    requires zone { IsZone header.now.layout zone.number }
    requires most { most ≤ 3 }
    requires order { order ≤ 10 }
    ensures made { (who : Option CpuId) →
        CallLeadsAlone who (λ steps. IsOrderTest header.now zone mark most order steps result)
        pages.now pages.now }
    ensures answer { result ≡ order_verdict_at header.now zone.number mark most order pages.now }
{
    let verdict = watermark_test(pages, header, zone, mark, most);
    if order == 0 {
        return OrderVerdict {
            yes: verdict.yes,
            free: verdict.free,
            fast: verdict.fast,
            area: None,
        };
    }
    let limit = limit(header, zone, mark, most);
    let area = block_within(pages, header, zone, order, limit, verdict.free);
    OrderVerdict {
        yes: area.is_some(),
        free: verdict.free,
        fast: verdict.fast,
        area,
    }
}

/// The order of a free block of a zone, of an order or larger, where the free pages leave room for one.
fn block_within(
    pages: &Plain,
    header: &Header,
    zone: PlaceId,
    order: u32,
    limit: u64,
    free: u64,
) -> Option<u32>
    requires header { IsHeader header.now }
    requires room { IsSmallState header.now.layout (2 ^ 61) pages.now }
    requires zone { IsZone header.now.layout zone.number }
    requires least { 1 ≤ order }
    requires most { order ≤ 10 }
    requires limit { limit ≤ 2 ^ 43 }
    ensures { result ≡ (if has_room limit order free
        then block_found header.now.layout pages.now zone.number (areas_from order (areas_of header.now.items))
        else None) }
{
    if limit + ((1 << order) - 1) < free {
        first_block(pages, header, zone, order)
    } else {
        None
    }
}

/// The order of the first area of a zone, of an order or larger, that has a free block.
fn first_block(pages: &Plain, header: &Header, zone: PlaceId, order: u32) -> Option<u32>
    requires header { IsHeader header.now }
    requires room { IsSmallState header.now.layout (2 ^ 61) pages.now }
    requires zone { IsZone header.now.layout zone.number }
    requires least { 1 ≤ order }
    requires most { order ≤ 10 }
    ensures { result
        ≡ block_found header.now.layout pages.now zone.number (areas_from order (areas_of header.now.items)) }
{
    for number in order..11 {
        if has_block(pages, header, zone, number) {
            return Some(number);
        }
    }
    None
}

/// Whether the header declares an item for the blocks of an order, and the zone has such a block.
fn has_block(pages: &Plain, header: &Header, zone: PlaceId, order: u32) -> bool
    requires header { IsHeader header.now }
    requires room { IsSmallState header.now.layout (2 ^ 61) pages.now }
    requires zone { IsZone header.now.layout zone.number }
    requires least { 1 ≤ order }
    requires most { order ≤ 10 }
    ensures { result ≡ is_some
        (block_found header.now.layout pages.now zone.number (area_at order (area_index header.now.items order))) }
{
    match item_index(header, order) {
        Some(index) => {
            let counter = header.layout.counter(zone, 8 + index as u32);
            snapshot(pages, &header.layout, counter) != 0
        }
        None => false,
    }
}
