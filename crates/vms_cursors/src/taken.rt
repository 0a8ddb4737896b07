ghost use Rattle.std.specs.Prelude.{◌≡◌, ◌<◌, ◌≤◌, ◌+◌, ◌^◌, ◌+ℤ◌, ℕ, pos, slice_index_or, slice_set, unsigned_abs};
ghost use Rattle.vms_calls.specs.Common.{entries_of};
ghost use Rattle.vms_cursors.specs.Totals.{AreWithin, total_at};

use vms_base::{CounterId, Diffs, ItemId, Layout};

/// What a fold took: from how many groups, and how much for each item, in pages.
#[derive(Clone, Copy, Debug, PartialEq, Eq)]
pub struct Taken {
    pub groups: u32,
    pub totals: [i64; 32],
    pub ghost bounded: { AreWithin groups totals },
}

impl Taken {
    /// Nothing.
    pub fn nothing() -> Taken
        ensures groups { result.groups ≡ 0 }
        ensures totals { (i : ℕ) → total_at result.totals i ≡ pos 0 }
    {
        Taken {
            groups: 0,
            totals: [0; 32],
        }
    }

    /// With the list that was taken from the next group.
    pub fn add(self, layout: &Layout, list: Diffs) -> Taken
        requires { self.groups < 64 }
        ensures groups { result.groups ≡ self.groups + 1 }
        ensures totals { (i : ℕ) → total_at result.totals i
            ≡ total_at self.totals i +ℤ entries_of layout.now i self.groups list }
    {
        let mut totals = self.totals;
        for n in 0..8u32 {
            let counter = CounterId {
                number: 8 * self.groups + n,
            };
            add_entry(&mut totals, layout.item_of(counter), &list, n);
        }
        Taken {
            groups: self.groups + 1,
            totals,
        }
    }
}

/// Adds an entry of a list to the total of its item.
fn add_entry(totals: &mut [i64; 32], item: ItemId, list: &Diffs, n: u32)
    requires item { item.number < 32 }
    requires entry { n < 8 }
    requires small { unsigned_abs (total_at totals.old item.number) ≤ 2 ^ 32 }
    ensures { totals.new ≡ slice_set totals.old item.number
        (total_at totals.old item.number +ℤ slice_index_or list.now.values n (pos 0)) }
{
    totals[item.number as usize] += list.values[n as usize];
}
