//! What a step of the pass in a slot makes of the peaks.

use crate::{Newest, PagePeaks};
use vms_base::{CounterId, CpuId, CpuState, PlaceId, Row};
use vms_cells::Grid;
use vms_core::{Facts, Step};

impl PagePeaks {
    ghost use Rattle.std.specs.Prelude.{◌≡◌, ◌<◌, ◌≤◌, ◌+◌, ◌^◌, ◌∷◌, ℕ, length, max, slice_index_or, true, false};
    ghost use Rattle.std.specs.Prelude.{unsigned_abs};
    ghost use Rattle.vms_history.specs.Common.{Online};
    ghost use Rattle.vms_cells.specs.Cells.{at, with_cell};
    ghost use Rattle.vms_core.specs.Common.{History, if_present, is_number, pages};
    ghost use Rattle.vms_registers.specs.Slots.{MayWork};
    ghost use Rattle.vms_page_peaks.specs.Keeps.{KeepsPeaks, TellsNewest};
    ghost use Rattle.vms_page_peaks.specs.SetPeaks.{SetsPeak};

    /// Goes on with a step of the pass in a slot. For a load of an acknowledgement `newest` has what stands of its CPU
    /// and its zone; for any other step it counts for nothing.
    pub fn take(&mut self, facts: &Facts, slot: u32, step: &Step, newest: Newest)
        requires { (h : History) × (held : ℕ → ℕ) × (p : ℕ)
            × MayWork pages facts.now facts.now.layout.cpus h held slot p step.now
            × KeepsPeaks facts.now h self.old × TellsNewest facts.now h step.now newest }
        ensures { (h : History) (held : ℕ → ℕ) (p : ℕ) →
            MayWork pages facts.now facts.now.layout.cpus h held slot p step.now →
            KeepsPeaks facts.now h self.old → TellsNewest facts.now h step.now newest →
            KeepsPeaks facts.now (record { caller = p; step = step.now } ∷ h) self.new }
    {
        match *step {
            Step::Put(counter, _, _, delta, _) => self.spend(slot, counter, delta),
            Step::SetT(cpu, place, t) => self.raise(cpu, place, t),
            Step::LoadA(cpu, zone, told) => self.settle(cpu, zone, told, newest),
            Step::SetO(cpu) => take_out(&mut self.sums, &self.peaks, cpu.number as usize),
            _ => {}
        }
    }

    /// Counts a change by the pass in a slot as spent by its CPU.
    fn spend(&mut self, slot: u32, counter: CounterId, delta: i64)
        requires slot { slot < self.old.spent.rows }
        requires counter { counter.number < self.old.spent.width }
        requires room { at self.old.spent slot counter.number 0 + unsigned_abs delta < 2 ^ 64 }
        ensures { self.new ≡ record self.old {
          spent = with_cell self.old.spent slot counter.number
              (at self.old.spent slot counter.number 0 + unsigned_abs delta);
        } }
    {
        let spent = self.spent.get(slot as usize, counter.number as usize);
        let sum = spent + delta.unsigned_abs();
        self.spent.set(slot as usize, counter.number as usize, sum);
    }

    /// Sets the threshold of a CPU that is online.
    fn raise(&mut self, cpu: CpuId, place: PlaceId, t: u32)
        requires zones { self.old.peaks.width ≡ length self.old.sums }
        requires cpu { cpu.number < self.old.peaks.rows }
        requires part { place.number < length self.old.sums →
            at self.old.peaks cpu.number place.number 0 ≤ slice_index_or self.old.sums place.number 0 }
        requires room { place.number < length self.old.sums → slice_index_or self.old.sums place.number 0 < 2 ^ 62 }
        ensures node { length self.old.sums ≤ place.number → self.new ≡ self.old }
        ensures zone { place.number < length self.old.sums → SetsPeak Online cpu.number place.number
            (max t (at self.old.peaks cpu.number place.number 0)) self.old self.new }
    {
        if place.number as usize >= self.sums.len() {
            return;
        }
        let peak = self
            .peaks
            .get(cpu.number as usize, place.number as usize)
            .max(t as u64);
        self.set_peak(CpuState::Online, cpu, place, peak);
    }

    /// Where the threshold that was set last is found acknowledged, it is the peak.
    fn settle(&mut self, cpu: CpuId, zone: PlaceId, told: Option<u32>, newest: Newest)
        requires zones { self.old.peaks.width ≡ length self.old.sums }
        requires cpu { cpu.number < self.old.peaks.rows }
        requires zone { zone.number < length self.old.sums }
        requires part { if_present newest.cpu (at self.old.peaks cpu.number zone.number 0)
            ≤ slice_index_or self.old.sums zone.number 0 }
        requires room { slice_index_or self.old.sums zone.number 0 < 2 ^ 62 }
        ensures other { is_number told newest.number ≡ false → self.new ≡ self.old }
        ensures newest { is_number told newest.number ≡ true →
            SetsPeak newest.cpu cpu.number zone.number newest.t self.old self.new }
    {
        if is_newest(told, newest.number) {
            self.set_peak(newest.cpu, cpu, zone, newest.t as u64);
        }
    }

    /// Sets the peak of a CPU in a zone, and with it the sum where the CPU is online or dead.
    fn set_peak(&mut self, state: CpuState, cpu: CpuId, zone: PlaceId, peak: u64)
        requires zones { self.old.peaks.width ≡ length self.old.sums }
        requires cpu { cpu.number < self.old.peaks.rows }
        requires zone { zone.number < length self.old.sums }
        requires part { if_present state (at self.old.peaks cpu.number zone.number 0)
            ≤ slice_index_or self.old.sums zone.number 0 }
        requires room { slice_index_or self.old.sums zone.number 0 + peak < 2 ^ 64 }
        ensures { SetsPeak state cpu.number zone.number peak self.old self.new }
    {
        let at = zone.number as usize;
        let before = self.peaks.get(cpu.number as usize, at);
        self.peaks.set(cpu.number as usize, at, peak);
        if state != CpuState::Absent {
            let sum = self.sums.get(at) - before + peak;
            self.sums.set(at, sum);
        }
    }
}

ghost use Rattle.std.specs.Prelude.{◌≡◌, ◌<◌, ◌≤◌, ◌+◌, ℕ, length, slice_index_or};
ghost use Rattle.vms_cells.specs.Cells.{at};
ghost use Rattle.vms_core.specs.Common.{is_number};

/// Whether an acknowledgement names this number of sets.
fn is_newest(told: Option<u32>, number: u64) -> bool
    ensures { result ≡ is_number told number }
{
    match told {
        Some(named) => named as u64 == number,
        None => false,
    }
}

/// Takes the peaks of a CPU out of the sums.
fn take_out(sums: &mut Row<u64>, peaks: &Grid<u64>, cpu: usize)
    requires cpu { cpu < peaks.now.rows }
    requires zones { peaks.now.width ≡ length sums.old }
    requires part { (g : ℕ) → g < length sums.old → at peaks.now cpu g 0 ≤ slice_index_or sums.old g 0 }
    ensures zones { length sums.new ≡ length sums.old }
    ensures rest { (g : ℕ) → g < length sums.old →
        slice_index_or sums.new g 0 + at peaks.now cpu g 0 ≡ slice_index_or sums.old g 0 }
{
    for zone in 0..sums.len() {
        let sum = sums.get(zone) - peaks.get(cpu, zone);
        sums.set(zone, sum);
    }
}
