ghost use Rattle.std.specs.Prelude.{◌≡◌, ℕ, ◌<◌, ◌^◌, ◌+ℤ◌, length, pos, slice_index_or, slice_set, unsigned_abs, IfOk};
ghost use Rattle.vms_world.specs.Common.{IsHeader, item_count, listed, base_of_item};

use std::alloc::Global;
use vms_base::{CounterId, Header, Memory, Row};

/// The system-wide values as a run begins, by item, in pages: what the bases of an item's counters add up to.
pub(crate) fn systems(alloc: Global, header: &Header) -> Result<Row<i64>, Memory>
    requires { IsHeader header.now }
    ensures { IfOk result (λ row. row ≡ listed (base_of_item header.now) (item_count header.now.layout)) }
{
    let layout = &header.layout;
    let mut values = Row::filled(alloc, layout.items() as usize, 0)?;
    for number in 0..layout.counters() {
        let item = layout.item_of(CounterId { number }).number as usize;
        add_at(&mut values, item, header.bases.get(number as usize));
    }
    Ok(values)
}

/// Adds an amount to a number of a row.
#[inline]
fn add_at(row: &mut Row<i64>, at: usize, amount: i64)
    requires at { at < length row.old }
    requires bound { unsigned_abs (slice_index_or row.old at (pos 0) +ℤ amount) < 2 ^ 62 }
    ensures { row.new ≡ slice_set row.old at (slice_index_or row.old at (pos 0) +ℤ amount) }
{
    let sum = row.get(at) + amount;
    row.set(at, sum);
}
