ghost use Rattle.std.specs.Prelude.{◌≡◌, ◌≤◌, length, map, take};
ghost use Rattle.vms_world.specs.Common.{class_names};

use arrayvec::ArrayVec;
use vms_base::{Header, item_names};

/// The names of the items of a class, by position: of the nodes, or else of the zones.
pub(crate) fn names_of(header: &Header, node: bool) -> ArrayVec<&[u8], 16>
    ensures names { map (λ name. name.now) result.items
        ≡ take header.now.layout.positions (class_names node header.now.items) }
    ensures most { length result.items ≤ header.now.layout.positions }
{
    let positions = header.layout.positions() as usize;
    let fixed = item_names(node);
    let mut names = ArrayVec::new();
    for name in fixed {
        names.push(bytes_of(name));
    }
    for item in header.items.as_slice() {
        if item.node == node && names.len() < positions {
            names.push(item.name.as_slice());
        }
    }
    names
}

/// The bytes of a name that stays.
fn bytes_of<'a>(name: &'static str) -> &'a [u8]
    ensures { result.now ≡ name.now }
{
    name.as_bytes()
}
