ghost use Rattle.std.specs.Prelude.{◌≡◌, ◌<◌, ◌∷◌, [], ◌++◌, bytes_eq, length, map, nat_eq, nat_lt, position, ok_or};
ghost use Rattle.std.specs.Prelude.{◌≤◌, true, false, None, Ok, IfOk};
ghost use Rattle.std.specs.List.{list_any, position_or_len};
ghost use Rattle.vms_base.specs.Common.{node_items, zone_items, counter_at, place_count, rank_of, class_names};
ghost use Rattle.vms_header.specs.Drafts.{shape_of};
ghost use Rattle.vms_header.specs.Sections.{any_zone_row, base_row, counter_row, is_item_name, item_row, name_field};
ghost use Rattle.vms_header.specs.Sections.{rising, unmarked_zone_row, watermarks_row, with_base, with_counter};
ghost use Rattle.vms_header.specs.Sections.{draft_with_item, with_new_zone, zone_row};
ghost use Rattle.vms_header.specs.Values.{item_from_words, read_item, base_words};
ghost use Rattle.arrayvec.specs.ArrayVec.{array_vec_len};
ghost use Rattle.vms_header.specs.declared.causes.HeaderCause.TheVariants.{UnknownName};
ghost use Rattle.vms_header.specs.DraftFacts.{IsDraft};
ghost use Rattle.vms_text.specs.Common.{declared_items, item_named, place_named, and_then};
ghost use Rattle.vms_header.specs.Readers.{draft_of, IsSameRead, IsSameAnswer};

use crate::drafts::{Base, Draft, Section, Zone};
use crate::layouts::layout_of;
use crate::values::{
    any_number, class_field, share_words, unit_field, unmarked_zone_words, value_field, zone_words,
};
use crate::{HeaderCause, ReadError};
use std::alloc::Global;
use vms_base::{Decl, ItemDecl, Layout, Memory, PlaceId, Row, item_names};
use vms_text::{class_position, is_name, is_node, place_named};

/// Sixteen items of each of 16 zones and 16 nodes.
const MOST_BASES: usize = 512;

/// Reads `watermarks KBYTES SCALE`.
pub(crate) fn watermarks_row(draft: Draft, fields: &[&[u8]]) -> Result<Draft, HeaderCause>
    ensures { IsSameAnswer draft_of
        (watermarks_row (draft_of draft) (map (λ field. field.now) fields.now)) result }
{
    let share = share_words(fields)?;
    Ok(Draft {
        section: Section::Watermarks,
        share: Some(share),
        ..draft
    })
}

/// Reads `item CLASS NAME` or `item CLASS NAME bytes`.
pub(crate) fn item_row(alloc: Global, draft: Draft, fields: &[&[u8]]) -> Result<Draft, ReadError>
    ensures { IsSameRead draft_of
        (item_row (draft_of draft) (map (λ field. field.now) fields.now)) result }
{
    let item = item_words(alloc, fields)?;
    with_item(draft, item)
}

fn item_words(alloc: Global, fields: &[&[u8]]) -> Result<ItemDecl, ReadError>
    ensures { IsSameRead (λ item. item) (read_item (map (λ field. field.now) fields.now)) result }
{
    match fields.len() {
        2 => item_of(alloc, fields[0], fields[1], Ok(false)),
        3 => item_of(alloc, fields[0], fields[1], unit_field(fields[2])),
        _ => Err(ReadError::Refused(HeaderCause::Malformed)),
    }
}

fn item_of(
    alloc: Global,
    class: &[u8],
    name: &[u8],
    unit: Result<bool, HeaderCause>,
) -> Result<ItemDecl, ReadError>
    ensures { IsSameRead (λ item. item) (item_from_words class.now name.now unit) result }
{
    let node = class_field(class)?;
    let name = name_field(name)?;
    let bytes = unit?;
    Ok(ItemDecl {
        name: Row::from_slice(alloc, name)?,
        node,
        bytes,
    })
}

/// A name of the form.
fn name_field(word: &[u8]) -> Result<&[u8], HeaderCause>
    ensures { IsSameAnswer (λ name. name.now) (name_field word.now) result }
{
    if is_name(word) {
        Ok(word)
    } else {
        Err(HeaderCause::UnknownName)
    }
}

/// Adds an item, unless another has its name or its class has eight declared items.
fn with_item(draft: Draft, item: ItemDecl) -> Result<Draft, ReadError>
    ensures { IsSameRead draft_of (draft_with_item (draft_of draft) item) result }
{
    if is_item_name(draft.items.as_slice(), item.name.as_slice()) {
        return Err(ReadError::Refused(HeaderCause::DoubledItem));
    }
    if declared_count(item.node, draft.items.as_slice()) >= 8 {
        return Err(ReadError::Refused(HeaderCause::TooManyItems));
    }
    let mut items = draft.items;
    items.push(item).map_err(Memory::from)?;
    Ok(Draft {
        section: Section::Items,
        items,
        ..draft
    })
}

/// Whether an item, fixed or declared, has a name.
fn is_item_name(items: &[ItemDecl], name: &[u8]) -> bool
    ensures { result ≡ is_item_name items.now name.now }
{
    is_fixed_name(name) || is_declared_name(items, name)
}

fn is_fixed_name(name: &[u8]) -> bool
    ensures { result ≡ list_any (bytes_eq name.now) (zone_items ++ node_items) }
{
    is_listed(item_names(false), name) || is_listed(item_names(true), name)
}

fn is_declared_name(items: &[ItemDecl], name: &[u8]) -> bool
    ensures { result ≡ list_any (λ item. bytes_eq name.now item.name) items.now }
{
    items.iter().any(|item| name == item.name.as_slice())
}

fn is_listed(names: &[&str], name: &[u8]) -> bool
    ensures { result ≡ list_any (λ other. bytes_eq name.now other.now) names.now }
{
    names.iter().any(|other| name == other.as_bytes())
}

/// How many items of a class are declared.
fn declared_count(node: bool, items: &[ItemDecl]) -> usize
    ensures { result ≡ length (declared_items node items.now) }
{
    items.iter().filter(|item| item.node == node).count()
}

/// Reads `zone NODE KIND MANAGED MIN LOW HIGH`, or `zone NODE KIND MANAGED` after a `watermarks` line.
pub(crate) fn any_zone_row(draft: Draft, fields: &[&[u8]]) -> Result<Draft, HeaderCause>
    ensures { IsSameAnswer draft_of
        (any_zone_row (draft_of draft) draft.share (map (λ field. field.now) fields.now)) result }
{
    match draft.share {
        None => zone_row(draft, fields),
        Some(_) => unmarked_zone_row(draft, fields),
    }
}

/// Reads `zone NODE KIND MANAGED MIN LOW HIGH`.
fn zone_row(draft: Draft, fields: &[&[u8]]) -> Result<Draft, HeaderCause>
    ensures { IsSameAnswer draft_of
        (zone_row (draft_of draft) (map (λ field. field.now) fields.now)) result }
{
    let zone = zone_words(fields)?;
    rising(draft, zone)
}

/// Reads `zone NODE KIND MANAGED`, where a `watermarks` line gives the marks.
fn unmarked_zone_row(draft: Draft, fields: &[&[u8]]) -> Result<Draft, HeaderCause>
    ensures { IsSameAnswer draft_of
        (unmarked_zone_row (draft_of draft) (map (λ field. field.now) fields.now)) result }
{
    let zone = unmarked_zone_words(fields)?;
    with_new_zone(draft, zone)
}

/// Adds a zone whose marks rise.
fn rising(draft: Draft, zone: Zone) -> Result<Draft, HeaderCause>
    ensures { IsSameAnswer draft_of (rising (draft_of draft) zone) result }
{
    if zone.size.min <= zone.size.low && zone.size.low <= zone.size.high {
        with_new_zone(draft, zone)
    } else {
        Err(HeaderCause::BadMarks)
    }
}

/// Adds a zone, unless the draft has it already or has 16.
fn with_new_zone(draft: Draft, zone: Zone) -> Result<Draft, HeaderCause>
    ensures { IsSameAnswer draft_of (with_new_zone (draft_of draft) zone) result }
{
    let rank = zone.name.rank();
    if has_rank(draft.zones.as_slice(), rank) {
        return Err(HeaderCause::DoubledZone);
    }
    if draft.zones.is_full() {
        return Err(HeaderCause::TooManyZones);
    }
    let mut zones = draft.zones;
    let index = first_above(zones.as_slice(), rank);
    zones.insert(index, zone);
    Ok(Draft {
        section: Section::Zones,
        zones,
        ..draft
    })
}

fn has_rank(zones: &[Zone], rank: u64) -> bool
    ensures { result ≡ list_any (λ other. nat_eq (rank_of other.name) rank) zones.now }
{
    zones.iter().any(|other| other.name.rank() == rank)
}

/// The index of the first zone of a higher rank, or the number of zones where there is none.
fn first_above(zones: &[Zone], rank: u64) -> usize
    ensures { result ≡ position_or_len (λ other. nat_lt rank (rank_of other.name)) zones.now }
{
    match above(zones, rank) {
        Some(index) => index,
        None => zones.len(),
    }
}

fn above(zones: &[Zone], rank: u64) -> Option<usize>
    ensures { result ≡ position (λ other. nat_lt rank (rank_of other.name)) zones.now }
{
    zones.iter().position(|other| rank < other.name.rank())
}

/// Reads `base PLACE ITEM VALUE`.
pub(crate) fn base_row(draft: Draft, fields: &[&[u8]]) -> Result<Draft, ReadError>
    requires { IsDraft (draft_of draft) }
    ensures { IsSameRead draft_of
        (base_row (draft_of draft) (map (λ field. field.now) fields.now)) result }
{
    if fields.len() != 4 {
        return Err(ReadError::Refused(HeaderCause::Malformed));
    }
    base_of(draft, fields[0], fields[1], fields[2], fields[3])
}

fn base_of(
    draft: Draft,
    node: &[u8],
    kind: &[u8],
    item: &[u8],
    value: &[u8],
) -> Result<Draft, ReadError>
    requires { IsDraft (draft_of draft) }
    ensures { IsSameRead draft_of
        (base_row (draft_of draft) (node.now ∷ kind.now ∷ item.now ∷ value.now ∷ [])) result }
{
    if draft.zones.is_empty() {
        return Err(ReadError::Refused(HeaderCause::NoZone));
    }
    let base = base_words(&draft, node, kind, item, value)?;
    with_base(draft, base)
}

fn base_words(
    draft: &Draft,
    node: &[u8],
    kind: &[u8],
    item: &[u8],
    value: &[u8],
) -> Result<Base, HeaderCause>
    requires draft { IsDraft (draft_of draft.now) }
    requires some { 0 < array_vec_len draft.now.zones }
    ensures { result ≡ base_words (draft_of draft.now) node.now kind.now item.now value.now }
{
    let node = any_number(node)?;
    let layout = layout_of(draft);
    let place = base_place(&layout, node, kind)?;
    let counter = base_counter(&layout, draft.items.as_slice(), place, item)?;
    let value = value_field(value)?;
    Ok(Base { counter, value })
}

fn base_place(layout: &Layout, node: u64, kind: &[u8]) -> Result<PlaceId, HeaderCause>
    ensures value { and_then result (λ place. Ok place.number)
        ≡ ok_or (place_named layout.now node kind.now) UnknownName }
    ensures place { IfOk result (λ place. place.number < place_count layout.now) }
{
    place_named(layout, node, kind).ok_or(HeaderCause::UnknownName)
}

fn base_counter(
    layout: &Layout,
    items: &[ItemDecl],
    place: PlaceId,
    item: &[u8],
) -> Result<u32, HeaderCause>
    requires place { place.number < place_count layout.now }
    requires zones { length (class_names false items.now) ≤ layout.now.positions }
    requires nodes { length (class_names true items.now) ≤ layout.now.positions }
    requires most { layout.now.positions ≤ 16 }
    ensures { result ≡ and_then (ok_or (item_named layout.now items.now place.number item.now) UnknownName)
        (λ position. Ok (counter_at layout.now place.number position)) }
{
    let position = class_position(is_node(layout, place), items, item).ok_or(
        HeaderCause::UnknownName,
    )?;
    Ok(layout.counter(place, position as u32).number)
}

/// Adds a base value, unless its counter has one.
fn with_base(draft: Draft, base: Base) -> Result<Draft, ReadError>
    ensures { IsSameRead draft_of (with_base (draft_of draft) base.counter base.value) result }
{
    if has_base(draft.bases.as_slice(), base.counter) {
        return Err(ReadError::Refused(HeaderCause::DoubledCounter));
    }
    let mut bases = draft.bases;
    push_base(&mut bases, base)?;
    Ok(Draft {
        section: Section::Bases,
        bases,
        ..draft
    })
}

/// Adds a base value, with room for all of them at the first one.
fn push_base(bases: &mut Vec<Base>, base: Base) -> Result<(), Memory>
    ensures { IfOk result (λ _. bases.new.items ≡ bases.old.items ++ base ∷ []) }
{
    if bases.is_empty() {
        bases.reserve(MOST_BASES)?;
    }
    bases.push(base)?;
    Ok(())
}

fn has_base(bases: &[Base], counter: u32) -> bool
    ensures { result ≡ list_any (λ base. nat_eq base.counter counter) bases.now }
{
    bases.iter().any(|base| base.counter == counter)
}

/// Reads `counter NAME BATCH`, where BATCH is twice the CPUs and at least 32 if it is left out.
pub(crate) fn counter_row(alloc: Global, draft: Draft, fields: &[&[u8]]) -> Result<Draft, ReadError>
    ensures { IsSameRead draft_of
        (counter_row (draft_of draft) (map (λ field. field.now) fields.now)) result }
{
    if fields.is_empty() || fields.len() > 2 {
        return Err(ReadError::Refused(HeaderCause::Malformed));
    }
    if draft.zones.is_empty() {
        return Err(ReadError::Refused(HeaderCause::NoZone));
    }
    let name = name_field(fields[0])?;
    let batch = match fields.get(1) {
        Some(batch) => any_number(batch)?,
        None => u64::from(draft.cpus).wrapping_mul(2).max(32),
    };
    with_counter(alloc, draft, name, batch)
}

/// Adds a percpu counter, unless the draft has its name already, its batch is out of range, or the draft has 16.
fn with_counter(alloc: Global, draft: Draft, name: &[u8], batch: u64) -> Result<Draft, ReadError>
    ensures { IsSameRead draft_of (with_counter (draft_of draft) name.now batch) result }
{
    if has_name(draft.counters.as_slice(), name) {
        return Err(ReadError::Refused(HeaderCause::DoubledCounter));
    }
    if batch < 1 || batch > 65536 {
        return Err(ReadError::Refused(HeaderCause::BadBatch));
    }
    if draft.counters.len() >= 16 {
        return Err(ReadError::Refused(HeaderCause::TooManyCounters));
    }
    let mut counters = draft.counters;
    let name = Row::from_slice(alloc, name)?;
    counters
        .push(Decl {
            name,
            batch: batch as u32,
        })
        .map_err(Memory::from)?;
    Ok(Draft {
        section: Section::Counters,
        counters,
        ..draft
    })
}

fn has_name(counters: &[Decl], name: &[u8]) -> bool
    ensures { result ≡ list_any (λ decl. bytes_eq name.now decl.name) counters.now }
{
    counters.iter().any(|decl| name == decl.name.as_slice())
}
