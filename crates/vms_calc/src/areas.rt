ghost use Rattle.std.specs.Prelude.{◌≡◌, ◌+◌, ◌-◌, ◌<◌, ◌≤◌, ◌&&◌, not, [], slice_index_or, bytes_eq, filter, map};
ghost use Rattle.std.specs.Prelude.{position, IfSome};
ghost use Rattle.vms_base.specs.Common.{area_names, IsHeader};
ghost use Rattle.vms_calc.specs.Areas.{area_index};

use vms_base::{Header, ItemDecl};

static AREAS: [&str; 10] = [
    "area1", "area2", "area3", "area4", "area5", "area6", "area7", "area8", "area9", "area10",
];

/// Which of the zones' declared items counts the free blocks of an order. Its position follows those of the eight fixed
/// items.
pub fn item_index(header: &Header, order: u32) -> Option<usize>
    requires header { IsHeader header.now }
    requires least { 1 ≤ order }
    requires most { order ≤ 10 }
    ensures value { result ≡ area_index header.now.items order }
    ensures bound { IfSome result (λ index. 8 + index < header.now.layout.positions) }
{
    declared_index(header.items.as_slice(), area_name(order))
}

/// The name of the item that counts the free blocks of an order.
fn area_name(order: u32) -> &'static str
    requires least { 1 ≤ order }
    requires most { order ≤ 10 }
    ensures { result.now ≡ slice_index_or area_names (order - 1) [] }
{
    area_names()[order as usize - 1]
}

/// The names of the items for the orders from 1 on.
fn area_names() -> &'static [&'static str]
    ensures { map (λ name. name.now) result.now ≡ area_names }
{
    &AREAS
}

/// Which of the zones' declared items has a name and doesn't count bytes.
fn declared_index(items: &[ItemDecl], name: &str) -> Option<usize>
    ensures { result ≡ position (λ item. bytes_eq item.name name.now && not item.bytes)
        (filter (λ item. not item.node) items.now) }
{
    items.iter().filter(|item| !item.node).position(|item| item.name.as_slice() == name.as_bytes()
        && !item.bytes)
}
