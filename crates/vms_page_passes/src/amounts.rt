use std::alloc::Global;
use vms_base::{CounterId, Diffs, GroupId, ItemId, Layout, Memory};
use vms_cells::Tally;

/// What the pass in each slot carries, in pages.
#[derive(Debug, Drop)]
pub struct Amounts {
    /// By slot and counter.
    pub(crate) by_counter: Tally,
    /// By slot and item.
    pub(crate) by_item: Tally,
}

impl Amounts {
    ghost use Rattle.std.specs.Prelude.{◌≡◌, ◌↔◌, ◌+◌, ◌<◌, ◌≤◌, ◌^◌, pos, neg_ℤ, ◌+ℤ◌, unsigned_abs, nat_eq};
    ghost use Rattle.std.specs.Prelude.{if◌then◌else◌, IfOk, IsTrue};
    ghost use Rattle.vms_history.specs.Common.{IsCounter, IsGroup, IsItem, IsLayout, counter_count, group_of};
    ghost use Rattle.vms_history.specs.Common.{item_count, item_of};
    ghost use Rattle.vms_cells.specs.Cells.{at, filled};
    ghost use Rattle.vms_cells.specs.Tallies.{IsEmptyRow};
    ghost use Rattle.vms_core.specs.Common.{entries_of, entry};
    ghost use Rattle.vms_page_passes.specs.Amounts.{Carries, HasAmounts, HasRoom};

    /// No pass carries anything.
    pub(crate) fn none(alloc: Global, layout: &Layout) -> Result<Amounts, Memory>
        ensures { IfOk result (λ amounts. amounts ≡ record {
          by_counter = filled (layout.now.cpus + 1) (counter_count layout.now) (pos 0);
          by_item = filled (layout.now.cpus + 1) (item_count layout.now) (pos 0);
        }) }
    {
        let slots = layout.cpus() as usize + 1;
        let by_counter = Tally::zeros(alloc, slots, layout.counters() as usize)?;
        let by_item = Tally::zeros(alloc, slots, layout.items() as usize)?;
        Ok(Amounts {
            by_counter,
            by_item,
        })
    }

    /// Whether the pass in a slot carries nothing.
    #[inline]
    pub(crate) fn are_none(&self, slot: u32) -> bool
        requires by_counter { slot < self.now.by_counter.rows }
        requires by_item { slot < self.now.by_item.rows }
        ensures { IsTrue result ↔ (IsEmptyRow self.now.by_counter slot × IsEmptyRow self.now.by_item slot) }
    {
        self.by_counter.is_empty(slot as usize) && self.by_item.is_empty(slot as usize)
    }

    /// The pass in a slot carries so much more for a counter and for its item.
    #[inline]
    pub(crate) fn carry(&mut self, layout: &Layout, slot: u32, counter: CounterId, amount: i64)
        requires shaped { HasAmounts layout.now self.old }
        requires slot { slot ≤ layout.now.cpus }
        requires counter { IsCounter layout.now counter.number }
        requires counter_room { unsigned_abs (amount +ℤ at self.old.by_counter slot counter.number (pos 0)) < 2 ^ 63 }
        requires item_room { unsigned_abs (amount +ℤ
            at self.old.by_item slot (item_of layout.now counter.number) (pos 0)) < 2 ^ 63 }
        ensures { Carries layout.now slot (λ k. if nat_eq counter.number k then amount else pos 0)
            (λ i. if nat_eq (item_of layout.now counter.number) i then amount else pos 0) self.old self.new }
    {
        if amount == 0 {
            return;
        }
        let at = counter.number as usize;
        let carried = self.by_counter.get(slot as usize, at);
        self.by_counter.set(slot as usize, at, amount + carried);
        let item = layout.item_of(counter).number as usize;
        let carried_of_item = self.by_item.get(slot as usize, item);
        self.by_item
            .set(slot as usize, item, amount + carried_of_item);
    }

    /// The pass in a slot carries what it took of a group.
    pub(crate) fn carry_group(&mut self, layout: &Layout, slot: u32, group: GroupId, list: Diffs)
        requires layout { IsLayout layout.now }
        requires shaped { HasAmounts layout.now self.old }
        requires slot { slot ≤ layout.now.cpus }
        requires group { IsGroup layout.now group.number }
        requires room { HasRoom layout.now slot self.old }
        ensures { Carries layout.now slot
            (λ k. if nat_eq group.number (group_of k) then entry list.values k else pos 0)
            (λ i. entries_of layout.now i group.number list) self.old self.new }
    {
        for n in 0..8u32 {
            let counter = CounterId {
                number: 8 * group.number + n,
            };
            self.carry(layout, slot, counter, list.values[n as usize]);
        }
    }

    /// The pass in a slot carries nothing more for a counter.
    #[inline]
    pub(crate) fn drop_counter(&mut self, layout: &Layout, slot: u32, counter: CounterId)
        requires shaped { HasAmounts layout.now self.old }
        requires slot { slot ≤ layout.now.cpus }
        requires counter { IsCounter layout.now counter.number }
        ensures { Carries layout.now slot (λ k. if nat_eq counter.number k
            then neg_ℤ (at self.old.by_counter slot counter.number (pos 0)) else pos 0)
            (λ i. pos 0) self.old self.new }
    {
        self.by_counter
            .set(slot as usize, counter.number as usize, 0);
    }

    /// The pass in a slot carries nothing more for an item.
    #[inline]
    pub(crate) fn drop_item(&mut self, layout: &Layout, slot: u32, item: ItemId)
        requires shaped { HasAmounts layout.now self.old }
        requires slot { slot ≤ layout.now.cpus }
        requires item { IsItem layout.now item.number }
        ensures { Carries layout.now slot (λ k. pos 0) (λ i. if nat_eq item.number i
            then neg_ℤ (at self.old.by_item slot item.number (pos 0)) else pos 0) self.old self.new }
    {
        self.by_item.set(slot as usize, item.number as usize, 0);
    }
}
