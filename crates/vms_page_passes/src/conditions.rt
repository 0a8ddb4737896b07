//! Whether what the pass in a slot did so far lets it make a step.

ghost use Rattle.std.specs.Prelude.{◌≡◌, ◌↔◌, ◌<◌, ℕ, IsTrue, Some};
ghost use Rattle.vms_history.specs.Common.{own};
ghost use Rattle.vms_cells.specs.Cells.{at};
ghost use Rattle.vms_cells.specs.Stamps.{written_by};
ghost use Rattle.vms_core.specs.declared.steps.Facts.{Facts};
ghost use Rattle.vms_core.specs.Common.{Acknowledges, AddsToPlace, AddsToSystem, CarriesNothing, History, pages};
ghost use Rattle.vms_registers.specs.Slots.{StandsIn};
ghost use Rattle.vms_page_passes.specs.Conditions.{KnowsForMiss, KnowsForPut, MayBeAcknowledged};
ghost use Rattle.vms_page_passes.specs.Keeps.{KeepsPassNotes, unfound};
ghost use Rattle.vms_page_passes.specs.Notes.{unloaded};

use crate::PagePasses;
use crate::notes::Loaded;
use vms_base::{CounterId, Diffs, GroupId, ItemId, PlaceId};
use vms_core::Facts;

impl PagePasses {
    /// Whether the pass in a slot carries nothing, so that it may end.
    #[inline]
    pub fn carries_nothing(&self, slot: u32) -> bool
        requires { (facts : Facts) × (h : History) × (held : ℕ → ℕ) × (p : ℕ)
            × StandsIn pages facts facts.layout.cpus h held slot p × KeepsPassNotes facts h held self.now }
        ensures { (facts : Facts) (h : History) (held : ℕ → ℕ) (p : ℕ) →
            StandsIn pages facts facts.layout.cpus h held slot p → KeepsPassNotes facts h held self.now →
            IsTrue result ↔ CarriesNothing facts.layout (own h p) }
    {
        self.carried.are_none(slot)
    }

    /// Whether the pass in a slot knows what an exchange that wins needs: the list that it found in the counter's group
    /// last, the threshold that it loaded last, and that it carries nothing.
    #[inline]
    pub fn knows_for_put(
        &self,
        facts: &Facts,
        slot: u32,
        pass: u64,
        counter: CounterId,
        list: Diffs,
        t: u32,
    ) -> bool
        requires { (h : History) × (held : ℕ → ℕ) × StandsIn pages facts.now facts.now.layout.cpus h held slot pass
            × KeepsPassNotes facts.now h held self.now }
        ensures { (h : History) (held : ℕ → ℕ) → StandsIn pages facts.now facts.now.layout.cpus h held slot pass →
            KeepsPassNotes facts.now h held self.now → IsTrue result ↔ KnowsForPut facts.now h pass counter list t }
    {
        if slot >= facts.layout.cpus() || counter.number >= facts.layout.counters() {
            return false;
        }
        let group = facts.layout.group(counter);
        let place = facts.layout.place_of(counter);
        self.has_found(slot, pass, group, list.values)
            && self.has_loaded(slot, pass, place, t)
            && self.carries_nothing(slot)
    }

    /// Whether the pass in a slot found a list last in a group of its own CPU that it can miss: one that isn't eight
    /// times 0.
    #[inline]
    pub fn knows_for_miss(
        &self,
        facts: &Facts,
        slot: u32,
        pass: u64,
        group: GroupId,
        list: Diffs,
    ) -> bool
        requires { (h : History) × (held : ℕ → ℕ) × StandsIn pages facts.now facts.now.layout.cpus h held slot pass
            × KeepsPassNotes facts.now h held self.now }
        ensures { (h : History) (held : ℕ → ℕ) → StandsIn pages facts.now facts.now.layout.cpus h held slot pass →
            KeepsPassNotes facts.now h held self.now → IsTrue result ↔ KnowsForMiss facts.now h pass group list }
    {
        if slot >= facts.layout.cpus() || group.number >= facts.layout.groups() {
            return false;
        }
        self.has_found(slot, pass, group, list.values) && !are_same(list.values, [0; 8])
    }

    /// Whether the pass in a slot carries that amount, which isn't 0, for a counter.
    #[inline]
    pub fn adds_to_place(&self, facts: &Facts, slot: u32, counter: CounterId, amount: i64) -> bool
        requires { (h : History) × (held : ℕ → ℕ) × (p : ℕ)
            × StandsIn pages facts.now facts.now.layout.cpus h held slot p × KeepsPassNotes facts.now h held self.now }
        ensures { (h : History) (held : ℕ → ℕ) (p : ℕ) → StandsIn pages facts.now facts.now.layout.cpus h held slot p →
            KeepsPassNotes facts.now h held self.now → IsTrue result ↔ AddsToPlace facts.now h p counter amount }
    {
        if counter.number >= facts.layout.counters() || amount == 0 {
            return false;
        }
        self.carried
            .by_counter
            .get(slot as usize, counter.number as usize)
            == amount
    }

    /// Whether the pass in a slot carries that amount, which isn't 0, for an item.
    #[inline]
    pub fn adds_to_system(&self, facts: &Facts, slot: u32, item: ItemId, amount: i64) -> bool
        requires { (h : History) × (held : ℕ → ℕ) × (p : ℕ)
            × StandsIn pages facts.now facts.now.layout.cpus h held slot p × KeepsPassNotes facts.now h held self.now }
        ensures { (h : History) (held : ℕ → ℕ) (p : ℕ) → StandsIn pages facts.now facts.now.layout.cpus h held slot p →
            KeepsPassNotes facts.now h held self.now → IsTrue result ↔ AddsToSystem facts.now h p item amount }
    {
        if item.number >= facts.layout.items() || amount == 0 {
            return false;
        }
        self.carried
            .by_item
            .get(slot as usize, item.number as usize)
            == amount
    }

    /// Whether the pass in a slot may acknowledge the own threshold of a zone by its number of sets.
    #[inline]
    pub fn acknowledges(
        &self,
        facts: &Facts,
        slot: u32,
        pass: u64,
        zone: PlaceId,
        number: u32,
    ) -> bool
        requires { (h : History) × (held : ℕ → ℕ) × StandsIn pages facts.now facts.now.layout.cpus h held slot pass
            × KeepsPassNotes facts.now h held self.now }
        ensures { (h : History) (held : ℕ → ℕ) → StandsIn pages facts.now facts.now.layout.cpus h held slot pass →
            KeepsPassNotes facts.now h held self.now → IsTrue result ↔ Acknowledges facts.now h pass zone number }
    {
        if slot >= facts.layout.cpus() || zone.number as usize >= facts.layout.zones().len() {
            return false;
        }
        match self.last_loaded(slot, pass, zone) {
            Some(told) => told.may_be_acknowledged(number),
            None => false,
        }
    }

    #[inline]
    fn has_found(&self, slot: u32, pass: u64, group: GroupId, values: [i64; 8]) -> bool
        requires slot { slot < self.now.found.rows }
        requires group { group.number < self.now.found.width }
        ensures { IsTrue result ↔ (written_by pass (at self.now.found slot group.number unfound) ≡ Some values) }
    {
        let cell = self.found.get(slot as usize, group.number as usize);
        match cell.by(pass) {
            Some(found) => are_same(found, values),
            None => false,
        }
    }

    #[inline]
    fn has_loaded(&self, slot: u32, pass: u64, place: PlaceId, t: u32) -> bool
        requires slot { slot < self.now.loaded.rows }
        requires place { place.number < self.now.loaded.width }
        ensures { IsTrue result ↔ ((told : Loaded) × (told.t ≡ t)
            × (written_by pass (at self.now.loaded slot place.number unloaded) ≡ Some told)) }
    {
        match self.last_loaded(slot, pass, place) {
            Some(told) => told.t == t,
            None => false,
        }
    }

    /// What the pass in a slot loaded of a place last, and did there since.
    #[inline]
    fn last_loaded(&self, slot: u32, pass: u64, place: PlaceId) -> Option<Loaded>
        requires slot { slot < self.now.loaded.rows }
        requires place { place.number < self.now.loaded.width }
        ensures { result ≡ written_by pass (at self.now.loaded slot place.number unloaded) }
    {
        let cell = self.loaded.get(slot as usize, place.number as usize);
        cell.by(pass)
    }
}

impl Loaded {
    /// Whether the threshold was set so many times, each group of the place was taken since the load, and no put was
    /// made.
    #[inline]
    fn may_be_acknowledged(self, number: u32) -> bool
        ensures { IsTrue result ↔ MayBeAcknowledged self number }
    {
        self.number == number && self.took_first && self.took_last && !self.put
    }
}

/// Whether two lists have the same eight entries.
#[inline]
fn are_same(first: [i64; 8], second: [i64; 8]) -> bool
    ensures { IsTrue result ↔ (first ≡ second) }
{
    first == second
}
