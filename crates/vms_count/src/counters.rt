ghost use Rattle.std.specs.Prelude.{◌≡◌, ◌<◌};
ghost use Rattle.vms_base.specs.Places as places;

use vms_base::{CounterId, ItemId, Layout, PlaceId};

/// The place of a counter. Where `Layout::place_of` divides, it shifts.
#[inline]
pub(crate) fn place_of(layout: &Layout, counter: CounterId) -> PlaceId
    ensures value { result.number ≡ places.place_of layout.now counter.number }
    ensures bound { counter.number < places.counter_count layout.now
        → result.number < places.place_count layout.now }
    ensures is_layout { places.IsLayout layout.now }
{
    if layout.positions() == 8 {
        PlaceId {
            number: counter.number / 8,
        }
    } else {
        PlaceId {
            number: counter.number / 16,
        }
    }
}

/// The system-wide value that a counter adds to, likewise.
#[inline]
pub(crate) fn item_of(layout: &Layout, counter: CounterId) -> ItemId
    ensures value { result.number ≡ places.item_of layout.now counter.number }
    ensures bound { result.number < places.item_count layout.now }
    ensures is_layout { places.IsLayout layout.now }
{
    let positions = layout.positions();
    let place = place_of(layout, counter);
    let position = counter.number - positions * place.number;
    if place.number < layout.zones().len() as u32 {
        ItemId { number: position }
    } else {
        ItemId {
            number: positions + position,
        }
    }
}
