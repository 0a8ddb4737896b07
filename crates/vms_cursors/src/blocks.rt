ghost use Rattle.std.specs.Prelude.{◌≡◌, ◌≤◌, [], IfSome, IsNone};
ghost use Rattle.vms_calls.specs.Common.{IsCounter, IsHeader, IsZone, areas_from, areas_of};
ghost use Rattle.vms_cursors.specs.Orders.{IsFirstFrom};

use vms_base::{CounterId, Header, PlaceId};
use vms_calc::item_index;

/// The free blocks of an order in a zone: the counter that counts them.
#[derive(Clone, Copy, Debug, PartialEq, Eq)]
pub struct Blocks {
    pub order: u32,
    pub counter: CounterId,
}

/// The blocks of the first order from this one on that the header has an item for: none where there is none.
pub fn first_blocks(from: u32, zone: PlaceId, header: &Header) -> Option<Blocks>
    requires header { IsHeader header.now }
    requires zone { IsZone header.now.layout zone.number }
    requires least { 1 ≤ from }
    ensures first { IfSome result (λ blocks. IsFirstFrom header.now zone from blocks) }
    ensures none { IsNone result → areas_from from (areas_of header.now.items) ≡ [] }
    ensures order { IfSome result (λ blocks. blocks.order ≤ 10) }
    ensures counter { IfSome result (λ blocks. IsCounter header.now.layout blocks.counter.number) }
{
    for order in from..11 {
        match item_index(header, order) {
            Some(index) => {
                return Some(Blocks {
                    order,
                    counter: header.layout.counter(zone, 8 + index as u32),
                });
            }
            None => {}
        }
    }
    None
}
