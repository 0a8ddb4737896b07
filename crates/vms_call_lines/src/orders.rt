//! The test of a zone for blocks of an order, and of a node whether it is balanced.

ghost use Rattle.std.specs.Prelude.{◌≡◌, ◌≤◌, ◌^◌, ◌++◌, IfOk, List, None, OnErr, Option, Some};
ghost use Rattle.vms_text.specs.Common.{Begins};
ghost use Rattle.vms_calls.specs.Common.{Area, CpuId, IsHeader, IsNode, IsZone, area_at, area_index, areas_from};
ghost use Rattle.vms_calls.specs.Common.{areas_of, has_room};
ghost use Rattle.vms_plain_pages.specs.Common.{IsSmallState};
ghost use Rattle.vms_plans.specs.Common.{balance_plan, blocks_plan, either, ends, order_plan};
ghost use Rattle.vms_call_lines.specs.Lines.{BeginsWriting, WritesWay};

use crate::looks::write_snapshot;
use crate::tests::write_test;
use vms_base::{Header, Memory, PlaceId, WaterMark};
use vms_calc::{is_up_to, item_index, limit};
use vms_calls::{Balance, OrderVerdict};
use vms_core::Plain;

/// A test whether a node is balanced for an order: its zones up to the zone index `most` are tested in order by their
/// `high` watermark, up to the first that passes.
pub(crate) fn write_balance(
    out: &mut Vec<u8>,
    caller: u32,
    pages: &Plain,
    header: &Header,
    node: PlaceId,
    order: u32,
    most: u32,
) -> Result<Balance, Memory>
    requires header { IsHeader header.now }
    requires room { IsSmallState header.now.layout (2 ^ 61) pages.now }
    requires node { IsNode header.now.layout node.number }
    requires order { order ≤ 10 }
    requires most { most ≤ 3 }
    ensures ok { IfOk result (λ answer. (who : Option CpuId) → WritesWay who (balance_plan header.now node order most)
        pages.now caller out.old.items out.new.items answer pages.now) }
    ensures err { OnErr result (Begins out.old.items out.new.items) }
{
    let zones = header.layout.zones();
    let number = header.layout.nodes()[node.number as usize - zones.len()];
    for place in 0..zones.len() {
        if is_up_to(zones[place], number, most) {
            let zone = PlaceId {
                number: place as u32,
            };
            let verdict = write_order(
                out,
                caller,
                pages,
                header,
                zone,
                WaterMark::High,
                most,
                order,
            )?;
            if verdict.yes {
                return Ok(Balance::Yes(zone, verdict));
            }
        }
    }
    Ok(Balance::No)
}

/// A test whether a zone has more free pages than a watermark asks for and, above order 0, a free block of an order or
/// larger.
fn write_order(
    out: &mut Vec<u8>,
    caller: u32,
    pages: &Plain,
    header: &Header,
    zone: PlaceId,
    mark: WaterMark,
    most: u32,
    order: u32,
) -> Result<OrderVerdict, Memory>
    requires header { IsHeader header.now }
    requires room { IsSmallState header.now.layout (2 ^ 61) pages.now }
    requires zone { IsZone header.now.layout zone.number }
    requires most { most ≤ 3 }
    requires order { order ≤ 10 }
    ensures ok { IfOk result (λ answer. (who : Option CpuId) → WritesWay who (order_plan header.now zone mark most order)
        pages.now caller out.old.items out.new.items answer pages.now) }
    ensures err { OnErr result (Begins out.old.items out.new.items) }
{
    let verdict = write_test(out, caller, pages, header, zone, mark, most)?;
    if order == 0 {
        return Ok(OrderVerdict {
            yes: verdict.yes,
            free: verdict.free,
            fast: verdict.fast,
            area: None,
        });
    }
    let limit = limit(header, zone, mark, most);
    let area = write_block_within(out, caller, pages, header, zone, order, limit, verdict.free)?;
    Ok(OrderVerdict {
        yes: area.is_some(),
        free: verdict.free,
        fast: verdict.fast,
        area,
    })
}

/// The order of a free block of a zone, of an order or larger, where the free pages leave room for one.
fn write_block_within(
    out: &mut Vec<u8>,
    caller: u32,
    pages: &Plain,
    header: &Header,
    zone: PlaceId,
    order: u32,
    limit: u64,
    free: u64,
) -> Result<Option<u32>, Memory>
    requires header { IsHeader header.now }
    requires room { IsSmallState header.now.layout (2 ^ 61) pages.now }
    requires zone { IsZone header.now.layout zone.number }
    requires least { 1 ≤ order }
    requires most { order ≤ 10 }
    requires limit { limit ≤ 2 ^ 43 }
    ensures ok { IfOk result (λ area. (who : Option CpuId) → WritesWay who (either (has_room limit order free)
        (blocks_plan header.now.layout zone (areas_from order (areas_of header.now.items))) (ends None))
        pages.now caller out.old.items out.new.items area pages.now) }
    ensures err { OnErr result (Begins out.old.items out.new.items) }
{
    if !has_room(limit, order, free) {
        return Ok(None);
    }
    write_first_block(out, caller, pages, header, zone, order)
}

/// Whether more than `limit` of the free pages are left when all pages of a block but one are taken off.
#[inline]
fn has_room(limit: u64, order: u32, free: u64) -> bool
    requires limit { limit ≤ 2 ^ 43 }
    requires order { order ≤ 10 }
    ensures { result ≡ has_room limit order free }
{
    limit + ((1 << order) - 1) < free
}

/// The order of the first area of a zone, of an order or larger, that has a free block.
fn write_first_block(
    out: &mut Vec<u8>,
    caller: u32,
    pages: &Plain,
    header: &Header,
    zone: PlaceId,
    order: u32,
) -> Result<Option<u32>, Memory>
    requires header { IsHeader header.now }
    requires room { IsSmallState header.now.layout (2 ^ 61) pages.now }
    requires zone { IsZone header.now.layout zone.number }
    requires least { 1 ≤ order }
    requires most { order ≤ 10 }
    ensures ok { IfOk result (λ area. (who : Option CpuId) → WritesWay who
        (blocks_plan header.now.layout zone (areas_from order (areas_of header.now.items)))
        pages.now caller out.old.items out.new.items area pages.now) }
    ensures err { OnErr result (Begins out.old.items out.new.items) }
{
    for number in order..11 {
        if write_blocks(out, caller, pages, header, zone, number)? {
            return Ok(Some(number));
        }
    }
    Ok(None)
}

/// Whether the header declares an item for the blocks of an order, and the zone has such a block.
fn write_blocks(
    out: &mut Vec<u8>,
    caller: u32,
    pages: &Plain,
    header: &Header,
    zone: PlaceId,
    order: u32,
) -> Result<bool, Memory>
    requires header { IsHeader header.now }
    requires room { IsSmallState header.now.layout (2 ^ 61) pages.now }
    requires zone { IsZone header.now.layout zone.number }
    requires least { 1 ≤ order }
    requires most { order ≤ 10 }
    ensures ok { IfOk result (λ found. (who : Option CpuId) (areas : List Area) → BeginsWriting who
        (blocks_plan header.now.layout zone (area_at order (area_index header.now.items order) ++ areas))
        pages.now caller out.old.items out.new.items
        (either found (ends (Some order)) (blocks_plan header.now.layout zone areas)) pages.now) }
    ensures err { OnErr result (Begins out.old.items out.new.items) }
{
    match item_index(header, order) {
        Some(index) => {
            let counter = header.layout.counter(zone, 8 + index as u32);
            let blocks = write_snapshot(out, caller, pages, &header.layout, counter)?;
            Ok(blocks != 0)
        }
        None => Ok(false),
    }
}
