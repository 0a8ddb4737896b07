use std::alloc::Global;
use vms_base::{Memory, Row};

/// An amount that the pass in a slot has added to the value of a child of this group, and not to what is pending for
/// the group yet.
#[derive(Clone, Copy, Debug)]
pub struct Rise {
    pub slot: u32,
    pub group: u32,
    pub amount: i64,
}

/// The amounts that rise, in a table that has room for more.
#[derive(Debug, Drop)]
pub struct Rises {
    pub(crate) items: Row<Rise>,
    /// How many of the items are in use, the first ones.
    pub(crate) count: usize,
}

ghost use Rattle.std.specs.Prelude.{◌≡◌, ◌≢◌, ◌<◌, ◌≤◌, ◌↔◌, ℕ, false, true, length, IfOk, IsTrue, MatchOption};
ghost use Rattle.vms_group_registers.specs.Rises.{IsRise, added, dropped, rise_at, times_rising};

impl Rises {
    /// Room for so many amounts, of which none rises.
    pub(crate) fn none(alloc: Global, room: usize) -> Result<Rises, Memory>
        ensures { IfOk result (λ rises. (length rises.items ≡ room) × (rises.count ≡ 0)) }
    {
        let blank = Rise {
            slot: 0,
            group: 0,
            amount: 0,
        };
        let items = Row::filled(alloc, room, blank)?;
        Ok(Rises { items, count: 0 })
    }

    /// One more amount rises.
    pub(crate) fn add(&mut self, rise: Rise)
        requires { self.old.count < length self.old.items }
        ensures { self.new ≡ added rise self.old }
    {
        let _ = self.items.len();
        self.items.set(self.count, rise);
        self.count += 1;
    }

    /// An amount rises no more. The last one takes its place.
    pub(crate) fn drop_at(&mut self, at: usize)
        requires within { at < self.old.count }
        requires fits { self.old.count ≤ length self.old.items }
        ensures { self.new ≡ dropped at self.old }
    {
        let last = self.items.get(self.count - 1);
        self.items.set(at, last);
        self.count -= 1;
    }

    /// Where an amount stands that rises, the newest first.
    pub(crate) fn find(&self, slot: u32, group: u32, amount: i64) -> Option<usize>
        requires { self.now.count ≤ length self.now.items }
        ensures { MatchOption result
            ((i : ℕ) → i < self.now.count → ¬ IsRise slot group amount (rise_at self.now i))
            (λ at. (at < self.now.count) × IsRise slot group amount (rise_at self.now at)) }
    {
        let mut at = self.count;
        while at > 0 {
            at -= 1;
            let rise = self.items.get(at);
            if is_rise(rise, slot, group, amount) {
                return Some(at);
            }
        }
        None
    }

    /// Whether this amount of the pass in a slot rises to a group.
    pub(crate) fn has(&self, slot: u32, group: u32, amount: i64) -> bool
        requires { self.now.count ≤ length self.now.items }
        ensures { IsTrue result ↔ (0 < times_rising self.now slot group amount) }
    {
        self.find(slot, group, amount).is_some()
    }

    /// Whether no amount of the pass in a slot rises.
    pub(crate) fn has_none(&self, slot: u32) -> bool
        requires { self.now.count ≤ length self.now.items }
        ensures { IsTrue result ↔ ((i : ℕ) → i < self.now.count → (rise_at self.now i).slot ≢ slot) }
    {
        for at in 0..self.count {
            if self.items.get(at).slot == slot {
                return false;
            }
        }
        true
    }
}

#[inline]
fn is_rise(rise: Rise, slot: u32, group: u32, amount: i64) -> bool
    ensures { IsTrue result ↔ IsRise slot group amount rise }
{
    rise.slot == slot && rise.group == group && rise.amount == amount
}
