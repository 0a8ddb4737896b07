ghost use Rattle.std.specs.Prelude.{◌≡◌, ◌∷◌, [], ◌<◌, length, option_map, slice_get};
ghost use Rattle.vms_base.specs.Common.{class_names, IsPlace};
ghost use Rattle.vms_text.specs.PlaceNames.{IsKnown, declared_items};
ghost use Rattle.vms_text.specs.Spelling.{counter_words, entry_if_any, place_words};
ghost use Rattle.vms_text.specs.Writing.{text_of};

use crate::writing::Word;
use vms_base::{CounterId, Header, ItemDecl, PlaceId, item_names, kind_name};

/// The two words of a place.
#[inline]
pub fn words_of_place(header: &Header, place: PlaceId) -> (Word<'_>, Word<'_>)
    requires { IsPlace header.now.layout place.number }
    ensures { text_of result.0 ∷ text_of result.1 ∷ [] ≡ place_words header.now place.number }
{
    let zones = header.layout.zones();
    let index = place.number as usize;
    if index < zones.len() {
        let zone = zones[index];
        (
            Word::Unsigned(u64::from(zone.node)),
            Word::Text(kind_name(zone.kind).as_bytes()),
        )
    } else {
        let node = header.layout.nodes()[index - zones.len()];
        (Word::Unsigned(u64::from(node)), Word::Text(b"node"))
    }
}

/// The three words of a counter.
#[inline]
pub fn words_of_counter(header: &Header, counter: CounterId) -> (Word<'_>, Word<'_>, Word<'_>)
    requires { IsKnown header.now counter.number }
    ensures { text_of result.0 ∷ text_of result.1 ∷ text_of result.2 ∷ [] ≡ counter_words header.now counter.number }
{
    let place = header.layout.place_of(counter);
    let (node, kind) = words_of_place(header, place);
    let of_node = place.number as usize >= header.layout.zones().len();
    (
        node,
        kind,
        name_of_item(header, of_node, counter.number % header.layout.positions()),
    )
}

/// The name of the item of a class at a position.
#[inline]
pub fn name_of_item(header: &Header, node: bool, position: u32) -> Word<'_>
    requires { position < length (class_names node header.now.items) }
    ensures { text_of result ∷ [] ≡ entry_if_any (class_names node header.now.items) position }
{
    if position < 8 {
        Word::Text(item_names(node)[position as usize].as_bytes())
    } else {
        match declared_item(header.items.as_slice(), node, position - 8) {
            Some(item) => Word::Text(item.name.as_slice()),
            None => Word::Text(b""),
        }
    }
}

/// The declared item of a class that stands at an index among those of the class.
fn declared_item(items: &[ItemDecl], node: bool, index: u32) -> Option<&ItemDecl>
    ensures { option_map (λ item. item.now) result ≡ slice_get (declared_items node items.now) index }
{
    let mut left = index;
    for item in items {
        if item.node == node {
            if left == 0 {
                return Some(item);
            }
            left -= 1;
        }
    }
    None
}
