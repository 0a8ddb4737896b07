ghost use Rattle.std.specs.Prelude.{◌≡◌, ◌<◌, bytes_eq, length, map, position, IfSome};
ghost use Rattle.vms_base.specs.Common.{IsHeader, event_names, IsPlace, node_at};
ghost use Rattle.vms_line.specs.Fields.{amount_field, counter_field, cpu_field, event_field, in_pages, item_field};
ghost use Rattle.vms_line.specs.Fields.{known_cpu, limit_field, mark_named, node_field, number_field, number_up_to};
ghost use Rattle.vms_line.specs.Fields.{page_counter, pcpu_field, place_field, system_field, zone_field};
ghost use Rattle.vms_line.specs.Forms.{has_zone_up_to, index_under};

use crate::LineCause;
use vms_base::{
    CounterId, CpuId, Decl, EventId, Header, ItemId, PcpuId, PlaceId, WaterMark, event_names,
};
use vms_text::{
    class_position, is_in_bytes, is_node, name_index, node_at, node_named, place_named,
    read_signed, read_unsigned, read_within, zone_named,
};

/// A number of 64 bits.
#[inline]
pub(crate) fn number_field(word: &[u8]) -> Result<u64, LineCause>
    ensures { result ≡ number_field word.now }
{
    read_unsigned(word).ok_or(LineCause::BadNumber)
}

/// A number from 0 to `most`.
#[inline]
pub(crate) fn number_up_to(most: u64, word: &[u8]) -> Result<u64, LineCause>
    ensures { result ≡ number_up_to most word.now }
{
    read_within(word, 0, most).ok_or(LineCause::BadNumber)
}

/// A small number, from 0 to `most`.
pub(crate) fn index_field(most: u32, word: &[u8]) -> Result<u32, LineCause>
    ensures { result ≡ number_up_to most word.now }
{
    let number = number_up_to(u64::from(most), word)?;
    Ok(number as u32)
}

/// A signed number of 64 bits.
#[inline]
pub(crate) fn amount_field(word: &[u8]) -> Result<i64, LineCause>
    ensures { result ≡ amount_field word.now }
{
    read_signed(word).ok_or(LineCause::BadNumber)
}

/// A signed number of at most 2^60 in absolute size.
pub(crate) fn limit_field(word: &[u8]) -> Result<i64, LineCause>
    ensures { result ≡ limit_field word.now }
{
    let limit = amount_field(word)?;
    if limit.unsigned_abs() <= 1 << 60 {
        Ok(limit)
    } else {
        Err(LineCause::BadNumber)
    }
}

/// The number of a CPU of the machine.
pub(crate) fn cpu_field(header: &Header, word: &[u8]) -> Result<CpuId, LineCause>
    ensures { result ≡ cpu_field header.now word.now }
{
    let number = number_field(word)?;
    known_cpu(header, number)
}

/// The CPU of a number.
#[inline]
pub(crate) fn known_cpu(header: &Header, number: u64) -> Result<CpuId, LineCause>
    ensures { result ≡ known_cpu header.now number }
{
    if number < u64::from(header.layout.cpus()) {
        Ok(CpuId {
            number: number as u32,
        })
    } else {
        Err(LineCause::UnknownLane)
    }
}

/// The place that two words name: a node's number, and one of its zones or `node`.
pub(crate) fn place_field(header: &Header, node: &[u8], kind: &[u8]) -> Result<PlaceId, LineCause>
    ensures { result ≡ place_field header.now node.now kind.now }
{
    let node = number_field(node)?;
    place_named(&header.layout, node, kind).ok_or(LineCause::UnknownPlace)
}

/// The zone that two words name.
pub(crate) fn zone_field(header: &Header, node: &[u8], kind: &[u8]) -> Result<PlaceId, LineCause>
    ensures { result ≡ zone_field header.now node.now kind.now }
{
    let node = number_field(node)?;
    zone_named(&header.layout, node, kind).ok_or(LineCause::UnknownPlace)
}

/// The node that a number names.
pub(crate) fn node_field(header: &Header, node: &[u8]) -> Result<PlaceId, LineCause>
    ensures { result ≡ node_field header.now node.now }
{
    let node = number_field(node)?;
    node_named(&header.layout, node).ok_or(LineCause::UnknownPlace)
}

/// The counter of a place that a word names.
fn item_field(header: &Header, place: PlaceId, word: &[u8]) -> Result<CounterId, LineCause>
    requires header { IsHeader header.now }
    requires place { IsPlace header.now.layout place.number }
    ensures { result ≡ item_field header.now place word.now }
{
    let layout = &header.layout;
    let position = class_position(is_node(layout, place), header.items.as_slice(), word).ok_or(
        LineCause::UnknownItem,
    )?;
    Ok(layout.counter(place, position as u32))
}

/// The counter that three words name.
pub(crate) fn counter_field(
    header: &Header,
    node: &[u8],
    kind: &[u8],
    item: &[u8],
) -> Result<CounterId, LineCause>
    requires { IsHeader header.now }
    ensures { result ≡ counter_field header.now node.now kind.now item.now }
{
    let place = place_field(header, node, kind)?;
    item_field(header, place, item)
}

/// The event that a word names.
pub(crate) fn event_field(word: &[u8]) -> Result<EventId, LineCause>
    ensures { result ≡ event_field word.now }
{
    let number = event_index(word).ok_or(LineCause::UnknownItem)?;
    Ok(EventId {
        number: number as u32,
    })
}

fn event_index(word: &[u8]) -> Option<usize>
    ensures value { result ≡ position (bytes_eq word.now) event_names }
    ensures bound { IfSome result (λ index. index < 8) }
{
    name_index(event_names(), word)
}

/// The percpu counter that a word names.
pub(crate) fn pcpu_field(header: &Header, word: &[u8]) -> Result<PcpuId, LineCause>
    requires { IsHeader header.now }
    ensures { result ≡ pcpu_field header.now word.now }
{
    let number = decl_index(header.counters.as_slice(), word).ok_or(LineCause::UnknownCounter)?;
    Ok(PcpuId {
        number: number as u32,
    })
}

fn decl_index(decls: &[Decl], word: &[u8]) -> Option<usize>
    ensures value { result ≡ position (bytes_eq word.now) (map (λ decl. decl.name) decls.now) }
    ensures bound { IfSome result (λ index. index < length decls.now) }
{
    decls.iter().position(|decl| word == decl.name.as_slice())
}

/// The system-wide value that a word names.
pub(crate) fn system_field(header: &Header, word: &[u8]) -> Result<ItemId, LineCause>
    requires { IsHeader header.now }
    ensures { result ≡ system_field header.now word.now }
{
    let items = header.items.as_slice();
    if let Some(position) = class_position(false, items, word) {
        return Ok(ItemId {
            number: position as u32,
        });
    }
    let position = class_position(true, items, word).ok_or(LineCause::UnknownItem)?;
    Ok(ItemId {
        number: header.layout.positions() + position as u32,
    })
}

/// The watermark that a word names.
pub(crate) fn mark_named(word: &[u8]) -> Option<WaterMark>
    ensures { result ≡ mark_named word.now }
{
    match word {
        b"min" => Some(WaterMark::Min),
        b"low" => Some(WaterMark::Low),
        b"high" => Some(WaterMark::High),
        _ => None,
    }
}

/// An amount in pages: the trace gives some items in bytes, of which 4096 are a page.
pub(crate) fn in_pages(header: &Header, counter: CounterId, amount: i64) -> Result<i64, LineCause>
    ensures { result ≡ in_pages header.now counter amount }
{
    if !is_in_bytes(header, counter) {
        Ok(amount)
    } else if amount.unsigned_abs() % 4096 == 0 {
        Ok(amount / 4096)
    } else {
        Err(LineCause::NotPages)
    }
}

/// The counter, if its item is in pages.
pub(crate) fn page_counter(header: &Header, counter: CounterId) -> Result<CounterId, LineCause>
    ensures { result ≡ page_counter header.now counter }
{
    if is_in_bytes(header, counter) {
        Err(LineCause::NotPages)
    } else {
        Ok(counter)
    }
}

/// The index, if a node has a zone with an index up to it.
pub(crate) fn index_under(header: &Header, node: PlaceId, index: u32) -> Result<u32, LineCause>
    ensures { result ≡ index_under header.now (node_at header.now.layout node.number) index }
{
    match node_at(&header.layout, node) {
        Some(number) if has_zone_up_to(header, number, index) => Ok(index),
        _ => Err(LineCause::UnknownPlace),
    }
}

/// Whether a node has a zone with an index up to this one.
fn has_zone_up_to(header: &Header, node: u32, index: u32) -> bool
    ensures { result ≡ has_zone_up_to header.now node index }
{
    header
        .layout
        .zones()
        .iter()
        .any(|zone| zone.node == node && zone.kind as u32 <= index)
}
