//! What a step of the pass in a slot makes of what is kept.

ghost use Rattle.std.specs.Prelude.{◌≡◌, ◌<◌, ◌≤◌, ◌%◌, ◌^◌, ℕ, pos, ◌+ℤ◌, ◌∷◌, nat_eq, if◌then◌else◌, slice_set};
ghost use Rattle.std.specs.Prelude.{unsigned_abs};
ghost use Rattle.vms_history.specs.Common.{IsCounter, IsCpu, IsGroup, group_of, item_of, place_count, place_of};
ghost use Rattle.vms_cells.specs.Cells.{HasCells, at, with_cell};
ghost use Rattle.vms_core.specs.Common.{History, eight_zeros, entries_of, entry, pages};
ghost use Rattle.vms_registers.specs.Slots.{MayWork};
ghost use Rattle.vms_page_passes.specs.Amounts.{Carries, HasRoom};
ghost use Rattle.vms_page_passes.specs.Keeps.{IsKept, KeepsPassNotes};
ghost use Rattle.vms_page_passes.specs.Notes.{loading, putting, unloaded, with_taken};

use crate::PagePasses;
use crate::changes::{Changed, change};
use crate::notes::Loaded;
use vms_base::{CounterId, CpuId, Diffs, GroupId, Layout, PlaceId};
use vms_cells::Stamped;
use vms_core::{Facts, Step};

impl PagePasses {
    /// Goes on with a step of the pass of this number, which stands in this slot.
    pub fn take(&mut self, facts: &Facts, slot: u32, pass: u64, step: &Step)
        requires { (h : History) × (held : ℕ → ℕ)
            × MayWork pages facts.now facts.now.layout.cpus h held slot pass step.now
            × KeepsPassNotes facts.now h held self.old }
        ensures { (h : History) (held : ℕ → ℕ) →
            MayWork pages facts.now facts.now.layout.cpus h held slot pass step.now →
            KeepsPassNotes facts.now h held self.old →
            KeepsPassNotes facts.now (record { caller = pass; step = step.now } ∷ h) held self.new }
    {
        match *step {
            Step::LoadT(place, t, number) => self.load(slot, pass, place, t, number),
            Step::LoadD(cpu, group, list) => self.find(slot, pass, cpu, group, list.values),
            Step::Put(counter, list, t, delta, mode) => {
                let found = list.values[(counter.number % 8) as usize];
                let changed = change(mode, t, found, delta);
                self.put(&facts.layout, slot, pass, counter, list, changed);
            }
            Step::Miss(group, _) => {
                let own = CpuId { number: slot };
                self.find(slot, pass, own, group, [0; 8]);
            }
            Step::AddG(counter, _) => self.carried.drop_counter(&facts.layout, slot, counter),
            Step::AddS(item, _) => self.carried.drop_item(&facts.layout, slot, item),
            Step::Take(cpu, group, list) => {
                self.take_group(&facts.layout, slot, pass, cpu, group, list)
            }
            Step::LoadG(_, _) => {}
            Step::LoadS(_, _) => {}
            Step::LoadM(_, _, _) => {}
            Step::LoadO(_, _) => {}
            Step::SetT(_, _, _) => {}
            Step::SetM(_, _) => {}
            Step::SetO(_) => {}
            Step::SetA(_, _) => {}
            Step::LoadA(_, _, _) => {}
            Step::Split(_, _) => {}
            Step::Join(_) => {}
        }
    }

    /// The pass in a slot loaded the own threshold of a place.
    fn load(&mut self, slot: u32, pass: u64, place: PlaceId, t: u32, number: u32)
        requires slot { slot < self.old.loaded.rows }
        requires place { place.number < self.old.loaded.width }
        ensures { self.new ≡ record self.old {
          loaded = with_cell self.old.loaded slot place.number (record { writer = pass; value = loading t number });
        } }
    {
        let cell = Stamped {
            writer: pass,
            value: Loaded::make(t, number),
        };
        self.loaded.set(slot as usize, place.number as usize, cell);
    }

    /// The pass in a slot found that list in a group of a CPU, which is kept if the CPU is its own.
    fn find(&mut self, slot: u32, pass: u64, cpu: CpuId, group: GroupId, values: [i64; 8])
        requires cpu { cpu.number < self.old.found.rows }
        requires group { group.number < self.old.found.width }
        ensures { self.new ≡ record self.old {
          found = if nat_eq cpu.number slot
              then with_cell self.old.found slot group.number (record { writer = pass; value = values })
              else self.old.found;
        } }
    {
        if cpu.number == slot {
            let cell = Stamped {
                writer: pass,
                value: values,
            };
            self.found.set(slot as usize, group.number as usize, cell);
        }
    }

    /// The owner of a CPU changed a differential of the list that it found.
    fn put(
        &mut self,
        layout: &Layout,
        slot: u32,
        pass: u64,
        counter: CounterId,
        list: Diffs,
        changed: Changed,
    )
        requires kept { IsKept layout.now self.old }
        requires slot { IsCpu layout.now slot }
        requires counter { IsCounter layout.now counter.number }
        requires counter_room { unsigned_abs (changed.carried
            +ℤ at self.old.carried.by_counter slot counter.number (pos 0)) < 2 ^ 63 }
        requires item_room { unsigned_abs (changed.carried
            +ℤ at self.old.carried.by_item slot (item_of layout.now counter.number) (pos 0)) < 2 ^ 63 }
        ensures found { self.new.found ≡ with_cell self.old.found slot (group_of counter.number) (record {
          writer = pass;
          value = slice_set list.values (counter.number % 8) changed.differential;
        }) }
        ensures loaded { let place = place_of layout.now counter.number in self.new.loaded
            ≡ with_cell self.old.loaded slot place (putting (at self.old.loaded slot place unloaded)) }
        ensures carried { Carries layout.now slot (λ k. if nat_eq counter.number k then changed.carried else pos 0)
            (λ i. if nat_eq (item_of layout.now counter.number) i then changed.carried else pos 0)
            self.old.carried self.new.carried }
    {
        let mut values = list.values;
        values[(counter.number % 8) as usize] = changed.differential;
        let own = CpuId { number: slot };
        self.find(slot, pass, own, layout.group(counter), values);
        self.note_put(slot, layout.place_of(counter));
        self.carried.carry(layout, slot, counter, changed.carried);
    }

    /// A put was made in a place of the CPU of a slot.
    fn note_put(&mut self, slot: u32, place: PlaceId)
        requires slot { slot < self.old.loaded.rows }
        requires place { place.number < self.old.loaded.width }
        ensures { self.new ≡ record self.old {
          loaded = with_cell self.old.loaded slot place.number
              (putting (at self.old.loaded slot place.number unloaded));
        } }
    {
        let mut cell = self.loaded.get(slot as usize, place.number as usize);
        cell.value.put = true;
        self.loaded.set(slot as usize, place.number as usize, cell);
    }

    /// The pass in a slot took a group of a CPU.
    fn take_group(
        &mut self,
        layout: &Layout,
        slot: u32,
        pass: u64,
        cpu: CpuId,
        group: GroupId,
        list: Diffs,
    )
        requires kept { IsKept layout.now self.old }
        requires slot { slot ≤ layout.now.cpus }
        requires cpu { IsCpu layout.now cpu.number }
        requires group { IsGroup layout.now group.number }
        requires room { HasRoom layout.now slot self.old.carried }
        ensures found { self.new.found ≡ (if nat_eq cpu.number slot
            then with_cell self.old.found slot group.number (record { writer = pass; value = eight_zeros })
            else self.old.found) }
        ensures loaded { self.new.loaded ≡ (if nat_eq cpu.number slot
            then with_taken layout.now slot group.number self.old.loaded else self.old.loaded) }
        ensures carried { Carries layout.now slot
            (λ k. if nat_eq group.number (group_of k) then entry list.values k else pos 0)
            (λ i. entries_of layout.now i group.number list) self.old.carried self.new.carried }
    {
        self.find(slot, pass, cpu, group, [0; 8]);
        self.note_take(layout, slot, cpu, group);
        self.carried.carry_group(layout, slot, group, list);
    }

    /// A group of a CPU was taken, which counts if the CPU is that of the slot.
    fn note_take(&mut self, layout: &Layout, slot: u32, cpu: CpuId, group: GroupId)
        requires loaded { HasCells layout.now.cpus (place_count layout.now) self.old.loaded }
        requires cpu { IsCpu layout.now cpu.number }
        requires group { IsGroup layout.now group.number }
        ensures { self.new ≡ record self.old {
          loaded = if nat_eq cpu.number slot
              then with_taken layout.now slot group.number self.old.loaded else self.old.loaded;
        } }
    {
        if cpu.number == slot {
            let place = layout.place_of_group(group);
            let first = layout.group(layout.counter(place, 0));
            let last = layout.group(layout.counter(place, layout.positions() - 1));
            let mut cell = self.loaded.get(slot as usize, place.number as usize);
            cell.value = cell.value.taking(group == first, group == last);
            self.loaded.set(slot as usize, place.number as usize, cell);
        }
    }
}
