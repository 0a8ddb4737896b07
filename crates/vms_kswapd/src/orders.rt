ghost use Rattle.std.specs.Prelude.{◌≡◌, ◌≢◌, ◌≤◌, ◌^◌, ℕ, true, false, List, Some, None, if◌then◌else◌};
ghost use Rattle.vms_calls.specs.Common.{area_at, areas_from, areas_of, IsHeader, IsZone, limit_of, IsOrderTest};
ghost use Rattle.vms_calls.specs.Common.{has_room, Step, free_pages as free_counter, pages, area_index};
ghost use Rattle.vms_kswapd.specs.Passing.{CountsBlocks, FoundBlock};
ghost use Rattle.vms_kswapd.specs.Seeking.{HasSought, Seeks};
ghost use Rattle.vms_look.specs.Common.{SaysTruly, SumsTruly, TellsTruly};
ghost use Rattle.vms_seats.specs.Common.{IsFrom, Made};

use vms_base::{Header, PlaceId, WaterMark};
use vms_calc::{item_index, limit};
use vms_calls::OrderVerdict;
use vms_look::{snapshot, watermark_ok};
use vms_words::{Caller, PageTable};

/// Tests whether a zone has more free pages than a watermark asks for and, above order 0, a free block of `2^order`
/// pages or more (`__zone_watermark_ok` of mm/page_alloc.c), for a request that may use the zones of its node up to the
/// zone index `most`. The free pages are those of `watermark_ok`. Blocks are looked for in the zone items `area1` to
/// `area10` that the header declares, by ascending order up to the first snapshot that isn't 0, and only where more
/// pages than the watermark asks for are left once all pages of a block but one are taken off.
///
/// Of its free pages an answer, yes or no, says what that of `watermark_ok` does, and of a block that was found what a
/// snapshot does.
pub fn zone_ok<P: Caller>(
    table: &PageTable,
    pass: &mut P,
    header: &Header,
    zone: PlaceId,
    mark: WaterMark,
    order: u32,
    most: u32,
) -> OrderVerdict
    requires table { IsFrom (P.pass pass.old) table.now }
    requires header { IsHeader header.now }
    requires layout { header.now.layout ≡ table.now.facts.layout }
    requires sizes { header.now.sizes ≡ table.now.facts.sizes }
    requires zone { IsZone header.now.layout zone.number }
    requires order { order ≤ 10 }
    requires most { most ≤ 3 }
    ensures made { (steps : List Step) × IsOrderTest header.now zone mark most order steps result
        × Made pages (P.pass pass.new) (P.pass pass.old) steps }
    ensures near { result.fast ≡ true →
        TellsTruly (P.pass pass.new) (P.pass pass.old) zone result.free }
    ensures truly { result.yes ≡ true → result.fast ≡ true →
        SaysTruly (P.pass pass.new) (P.pass pass.old) zone (limit_of header.now zone.number mark most) }
    ensures summed { result.fast ≡ false →
        SumsTruly (P.pass pass.new) (P.pass pass.old) (free_counter header.now.layout zone) result.free }
    ensures block { result.yes ≡ true → order ≢ 0 → (steps : List Step)
        × FoundBlock header.now zone order steps result.area
        × Made pages (P.pass pass.new) (P.pass pass.old) steps }
    ensures counts { result.yes ≡ true → order ≢ 0 →
        CountsBlocks header.now (P.pass pass.new) (P.pass pass.old) zone order result.area }
    ensures volume { P.volume pass.new ≡ P.volume pass.old }
{
    let verdict = watermark_ok(table, pass, header, zone, mark, most);
    if order == 0 {
        return OrderVerdict {
            yes: verdict.yes,
            free: verdict.free,
            fast: verdict.fast,
            area: None,
        };
    }
    let limit = limit(header, zone, mark, most);
    let area = block_within(table, pass, header, zone, order, limit, verdict.free);
    OrderVerdict {
        yes: area.is_some(),
        free: verdict.free,
        fast: verdict.fast,
        area,
    }
}

/// The order of a free block of a zone, of an order or larger, where the free pages leave room for one.
fn block_within<P: Caller>(
    table: &PageTable,
    pass: &mut P,
    header: &Header,
    zone: PlaceId,
    order: u32,
    limit: u64,
    free: u64,
) -> Option<u32>
    requires table { IsFrom (P.pass pass.old) table.now }
    requires header { IsHeader header.now }
    requires layout { header.now.layout ≡ table.now.facts.layout }
    requires zone { IsZone header.now.layout zone.number }
    requires least { 1 ≤ order }
    requires most { order ≤ 10 }
    requires limit { limit ≤ 2 ^ 43 }
    ensures made { (steps : List Step) × Seeks header.now zone order (has_room limit order free) steps result
        × Made pages (P.pass pass.new) (P.pass pass.old) steps }
    ensures counts { (found : ℕ) → result ≡ Some found →
        CountsBlocks header.now (P.pass pass.new) (P.pass pass.old) zone order result }
    ensures volume { P.volume pass.new ≡ P.volume pass.old }
{
    pass.is_live();
    if limit + ((1 << order) - 1) < free {
        first_block(table, pass, header, zone, order)
    } else {
        None
    }
}

/// The order of the first area of a zone, of an order or larger, that is found to have a free block.
fn first_block<P: Caller>(
    table: &PageTable,
    pass: &mut P,
    header: &Header,
    zone: PlaceId,
    order: u32,
) -> Option<u32>
    requires table { IsFrom (P.pass pass.old) table.now }
    requires header { IsHeader header.now }
    requires layout { header.now.layout ≡ table.now.facts.layout }
    requires zone { IsZone header.now.layout zone.number }
    requires least { 1 ≤ order }
    requires most { order ≤ 10 }
    ensures made { HasSought header.now.layout (P.pass pass.new) (P.pass pass.old) zone
        (areas_from order (areas_of header.now.items)) result }
    ensures counts { (found : ℕ) → result ≡ Some found →
        CountsBlocks header.now (P.pass pass.new) (P.pass pass.old) zone order result }
    ensures volume { P.volume pass.new ≡ P.volume pass.old }
{
    pass.is_live();
    for number in order..11 {
        if has_block(table, pass, header, zone, number) {
            return Some(number);
        }
    }
    None
}

/// Whether the header declares an item for the blocks of an order, and the zone is found to have such a block.
fn has_block<P: Caller>(
    table: &PageTable,
    pass: &mut P,
    header: &Header,
    zone: PlaceId,
    order: u32,
) -> bool
    requires table { IsFrom (P.pass pass.old) table.now }
    requires header { IsHeader header.now }
    requires layout { header.now.layout ≡ table.now.facts.layout }
    requires zone { IsZone header.now.layout zone.number }
    requires least { 1 ≤ order }
    requires most { order ≤ 10 }
    ensures made { HasSought header.now.layout (P.pass pass.new) (P.pass pass.old) zone
        (area_at order (area_index header.now.items order)) (if result then Some order else None) }
    ensures counts { result ≡ true →
        CountsBlocks header.now (P.pass pass.new) (P.pass pass.old) zone order (Some order) }
    ensures volume { P.volume pass.new ≡ P.volume pass.old }
{
    pass.is_live();
    match item_index(header, order) {
        Some(index) => {
            let counter = header.layout.counter(zone, 8 + index as u32);
            snapshot(table, pass, counter) != 0
        }
        None => false,
    }
}
