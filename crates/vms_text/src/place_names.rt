ghost use Rattle.std.specs.Prelude.{◌≡◌, ◌≢◌, ◌<◌, All, IfNone, IfSome, bytes_eq, length, map, option_map, position};
ghost use Rattle.std.specs.Prelude.{slice_get, if◌then◌else◌};
ghost use Rattle.vms_base.specs.Common.{class_names, declared_names, node_items, zone_items, IsLayout, node_at};
ghost use Rattle.vms_base.specs.Common.{node_place};
ghost use Rattle.vms_text.specs.PlaceNames.{declared_items, is_in_bytes, is_item_in_bytes, is_node_place, kind_named};
ghost use Rattle.vms_text.specs.PlaceNames.{place_named, zone_named};

use vms_base::{CounterId, Header, ItemDecl, Layout, PlaceId, ZoneKind, ZoneName, item_names};

/// The kind of zones that a word names.
pub fn kind_named(word: &[u8]) -> Option<ZoneKind>
    ensures { result ≡ kind_named word.now }
{
    match word {
        b"DMA" => Some(ZoneKind::Dma),
        b"DMA32" => Some(ZoneKind::Dma32),
        b"Normal" => Some(ZoneKind::Normal),
        b"Movable" => Some(ZoneKind::Movable),
        _ => None,
    }
}

/// The zone of a node that a word names.
pub fn zone_named(layout: &Layout, node: u64, word: &[u8]) -> Option<PlaceId>
    ensures { option_map (λ place. place.number) result ≡ zone_named layout.now node word.now }
{
    let kind = kind_named(word)?;
    let node = node_number(layout, node)?;
    layout.zone(ZoneName { node, kind })
}

/// The node of a number.
pub fn node_named(layout: &Layout, node: u64) -> Option<PlaceId>
    ensures { option_map (λ place. place.number) result ≡ node_place layout.now node }
{
    let node = node_number(layout, node)?;
    layout.node(node)
}

/// The number of a node in 32 bits. No node has a larger one.
#[inline]
fn node_number(layout: &Layout, node: u64) -> Option<u32>
    ensures is_layout { IsLayout layout.now }
    ensures some { IfSome result (λ number. number ≡ node) }
    ensures none { IfNone result (All (λ number. number ≢ node) layout.now.nodes) }
{
    let _ = layout.nodes();
    u32::try_from(node).ok()
}

/// The number of the node at a place, if a node stands there.
pub fn node_at(layout: &Layout, place: PlaceId) -> Option<u32>
    ensures { result ≡ node_at layout.now place.number }
{
    let index = (place.number as usize).checked_sub(layout.zones().len())?;
    layout.nodes().get(index).copied()
}

/// The place of a node that a word names: one of its zones, or `node` for the node itself.
pub fn place_named(layout: &Layout, node: u64, word: &[u8]) -> Option<PlaceId>
    ensures { option_map (λ place. place.number) result ≡ place_named layout.now node word.now }
{
    match word {
        b"node" => node_named(layout, node),
        _ => zone_named(layout, node, word),
    }
}

/// Whether a node stands at a place.
#[inline]
pub fn is_node(layout: &Layout, place: PlaceId) -> bool
    ensures { result ≡ is_node_place layout.now place.number }
{
    place.number as usize >= layout.zones().len()
}

/// The position of an item in its class: of the nodes, or else of the zones.
pub fn class_position(node: bool, items: &[ItemDecl], word: &[u8]) -> Option<usize>
    ensures { result ≡ position (bytes_eq word.now) (class_names node items.now) }
{
    match fixed_position(node, word) {
        Some(position) => Some(position),
        None => Some(8 + declared_position(node, items, word)?),
    }
}

/// The position of a fixed item in its class. The names of each class are told apart here, so that the compiler knows
/// them.
#[inline]
fn fixed_position(node: bool, word: &[u8]) -> Option<usize>
    ensures { result ≡ position (bytes_eq word.now) (if node then node_items else zone_items) }
{
    if node {
        name_index(item_names(true), word)
    } else {
        name_index(item_names(false), word)
    }
}

/// The place of a declared item among those of its class.
#[inline(never)]
fn declared_position(node: bool, items: &[ItemDecl], word: &[u8]) -> Option<usize>
    ensures { result ≡ position (bytes_eq word.now) (declared_names node items.now) }
{
    items
        .iter()
        .filter(|item| item.node == node)
        .position(|item| word == item.name.as_slice())
}

/// Whether a trace gives the amounts of a counter in bytes.
pub fn is_in_bytes(header: &Header, counter: CounterId) -> bool
    ensures { result ≡ is_in_bytes header.now counter.number }
{
    let layout = &header.layout;
    let position = counter.number % layout.positions();
    position >= 8
        && is_declared_in_bytes(
            is_node(layout, layout.place_of(counter)),
            header.items.as_slice(),
            position as usize - 8,
        )
}

/// Whether a declared item of a class is in bytes.
fn is_declared_in_bytes(node: bool, items: &[ItemDecl], index: usize) -> bool
    ensures { result ≡ is_item_in_bytes (slice_get (declared_items node items.now) index) }
{
    match items.iter().filter(|item| item.node == node).nth(index) {
        Some(item) => item.bytes,
        None => false,
    }
}

/// The index of the first name that a word is.
#[inline]
pub fn name_index(names: &[&str], word: &[u8]) -> Option<usize>
    ensures { result ≡ position (bytes_eq word.now) (map (λ name. name.now) names.now) }
{
    names.iter().position(|name| word == name.as_bytes())
}
