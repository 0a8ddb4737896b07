//! What a step of the pass in a slot makes of the words.

ghost use Rattle.std.specs.Prelude.{◌≡◌, ◌<◌, ◌+◌, ◌≤◌, ◌^◌, ◌∷◌, ℕ, Some, length, ◌+ℤ◌, unsigned_abs};
ghost use Rattle.vms_history.specs.Common.{Absent, IsCounter, IsCpu, IsGroup, IsItem, IsPlace, IsZone};
ghost use Rattle.vms_core.specs.Common.{HasShape, History, differential_after, entry, mark_sets_at, pages, system_at};
ghost use Rattle.vms_core.specs.Common.{threshold_sets_at, value_at, with_diff, with_group_zeroed, with_mark};
ghost use Rattle.vms_core.specs.Common.{with_value};
ghost use Rattle.vms_core.specs.Cells.{with_acknowledged, with_cpu, with_system, with_threshold, zeroed};
ghost use Rattle.vms_registers.specs.Slots.{MayWork};
ghost use Rattle.vms_page_words.specs.Words.{KeepsWords, state_of};

use crate::PageWords;
use crate::cells::{counter_cell, group_cell, place_cell, zone_cell};
use vms_base::{CounterId, CpuId, CpuState, Diffs, GroupId, ItemId, Mode, PlaceId, Row};
use vms_core::{Facts, Step, overstep};

impl PageWords {
    /// Goes on with a step of the pass in a slot.
    pub fn take(&mut self, facts: &Facts, slot: u32, step: &Step)
        requires { (h : History) × (held : ℕ → ℕ) × (p : ℕ)
            × MayWork pages facts.now facts.now.layout.cpus h held slot p step.now × KeepsWords facts.now h self.old }
        ensures { (h : History) (held : ℕ → ℕ) (p : ℕ) →
            MayWork pages facts.now facts.now.layout.cpus h held slot p step.now → KeepsWords facts.now h self.old →
            KeepsWords facts.now (record { caller = p; step = step.now } ∷ h) self.new }
    {
        match *step {
            Step::Put(counter, list, t, delta, mode) => {
                self.put(facts, CpuId { number: slot }, counter, list, t, delta, mode)
            }
            Step::AddG(counter, amount) => self.add_to_place(counter, amount),
            Step::AddS(item, amount) => self.add_to_system(item, amount),
            Step::Take(cpu, group, _) => self.zero_group(facts, cpu, group),
            Step::SetT(cpu, place, t) => self.set_threshold(facts, cpu, place, t),
            Step::SetM(zone, mark) => self.set_mark(facts, zone, mark),
            Step::SetO(cpu) => self.set_absent(facts, cpu),
            Step::SetA(zone, number) => {
                self.acknowledge(facts, CpuId { number: slot }, zone, number)
            }
            Step::LoadT(_, _, _)
            | Step::LoadD(_, _, _)
            | Step::Miss(_, _)
            | Step::LoadG(_, _)
            | Step::LoadS(_, _)
            | Step::LoadM(_, _, _)
            | Step::LoadO(_, _)
            | Step::LoadA(_, _, _)
            | Step::Split(_, _)
            | Step::Join(_) => {}
        }
    }

    /// Changes a differential of a CPU, in whose group this list was found.
    fn put(
        &mut self,
        facts: &Facts,
        cpu: CpuId,
        counter: CounterId,
        list: Diffs,
        t: u32,
        delta: i64,
        mode: Mode,
    )
        requires shaped { HasShape facts.now.layout (state_of self.old) }
        requires cpu { IsCpu facts.now.layout cpu.number }
        requires counter { IsCounter facts.now.layout counter.number }
        requires delta { unsigned_abs delta ≤ 2 ^ 48 }
        ensures { state_of self.new ≡ with_diff (state_of self.old) cpu.number counter.number
            (differential_after mode t (entry list.values counter.number) delta) }
    {
        let found = list.values[(counter.number % 8) as usize];
        let at = counter_cell(&facts.layout, cpu, counter);
        self.diff.set(at, differential(mode, t, found, delta));
    }

    fn add_to_place(&mut self, counter: CounterId, amount: i64)
        requires counter { counter.number < length self.old.place }
        requires room { unsigned_abs (value_at (state_of self.old) counter.number +ℤ amount) < 2 ^ 62 }
        ensures { state_of self.new ≡ with_value (state_of self.old) counter.number
            (value_at (state_of self.old) counter.number +ℤ amount) }
    {
        let at = counter.number as usize;
        let sum = self.place.get(at) + amount;
        self.place.set(at, sum);
    }

    fn add_to_system(&mut self, item: ItemId, amount: i64)
        requires item { item.number < length self.old.system }
        requires room { unsigned_abs (system_at (state_of self.old) item.number +ℤ amount) < 2 ^ 62 }
        ensures { state_of self.new ≡ with_system (state_of self.old) item.number
            (system_at (state_of self.old) item.number +ℤ amount) }
    {
        let at = item.number as usize;
        let sum = self.system.get(at) + amount;
        self.system.set(at, sum);
    }

    /// The differentials of a CPU in a group become 0.
    fn zero_group(&mut self, facts: &Facts, cpu: CpuId, group: GroupId)
        requires shaped { HasShape facts.now.layout (state_of self.old) }
        requires cpu { IsCpu facts.now.layout cpu.number }
        requires group { IsGroup facts.now.layout group.number }
        ensures { state_of self.new ≡ with_group_zeroed (state_of self.old) cpu.number group.number }
    {
        zero_eight(&mut self.diff, group_cell(&facts.layout, cpu, group));
    }

    fn set_threshold(&mut self, facts: &Facts, cpu: CpuId, place: PlaceId, t: u32)
        requires shaped { HasShape facts.now.layout (state_of self.old) }
        requires cpu { IsCpu facts.now.layout cpu.number }
        requires place { IsPlace facts.now.layout place.number }
        requires room { threshold_sets_at (state_of self.old) cpu.number place.number + 1 < 2 ^ 64 }
        ensures { state_of self.new ≡ with_threshold (state_of self.old) cpu.number place.number t }
    {
        let number = self.threshold_sets(facts, cpu, place);
        let at = place_cell(&facts.layout, cpu, place);
        self.threshold.set(at, t);
        self.threshold_sets.set(at, number + 1);
    }

    fn set_mark(&mut self, facts: &Facts, zone: PlaceId, mark: u64)
        requires shaped { HasShape facts.now.layout (state_of self.old) }
        requires zone { IsZone facts.now.layout zone.number }
        requires room { mark_sets_at (state_of self.old) zone.number + 1 < 2 ^ 64 }
        ensures { state_of self.new ≡ with_mark (state_of self.old) zone.number mark }
    {
        let at = zone.number as usize;
        let number = self.mark_sets.get(at);
        self.mark.set(at, mark);
        self.mark_sets.set(at, number + 1);
    }

    fn set_absent(&mut self, facts: &Facts, cpu: CpuId)
        requires shaped { HasShape facts.now.layout (state_of self.old) }
        requires cpu { IsCpu facts.now.layout cpu.number }
        ensures { state_of self.new ≡ with_cpu (state_of self.old) cpu.number Absent }
    {
        self.cpu.set(cpu.number as usize, CpuState::Absent);
    }

    fn acknowledge(&mut self, facts: &Facts, cpu: CpuId, zone: PlaceId, number: u32)
        requires shaped { HasShape facts.now.layout (state_of self.old) }
        requires cpu { IsCpu facts.now.layout cpu.number }
        requires zone { IsZone facts.now.layout zone.number }
        ensures { state_of self.new ≡ with_acknowledged (state_of self.old) cpu.number zone.number number }
    {
        let at = zone_cell(&facts.layout, cpu, zone);
        self.acknowledged.set(at, Some(number));
    }
}

/// The differential that a change leaves, from the one that it found (`mod_zone_state` of mm/vmstat.c).
fn differential(mode: Mode, t: u32, found: i64, delta: i64) -> i64
    requires found { unsigned_abs found ≤ 128 }
    requires delta { unsigned_abs delta ≤ 2 ^ 48 }
    ensures { result ≡ differential_after mode t found delta }
{
    let sum = found + delta;
    if sum.unsigned_abs() <= t as u64 {
        sum
    } else {
        -overstep(mode, t)
    }
}

/// Makes the eight numbers of a list from a place on 0.
fn zero_eight(numbers: &mut Row<i64>, start: usize)
    requires within { start + 8 ≤ length numbers.old }
    requires small { start < 2 ^ 32 }
    ensures { numbers.new ≡ zeroed numbers.old start 8 }
{
    for n in 0..8 {
        numbers.set(start + n, 0);
    }
}
