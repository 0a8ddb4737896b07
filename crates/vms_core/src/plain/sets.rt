use super::cell;
use crate::Plain;
use vms_base::{CpuId, CpuState, PlaceId};

impl Plain {
    ghost use Rattle.std.specs.Prelude.{◌≡◌, ℕ, ◌^◌, ◌<◌, ◌≤◌, length, pos};
    ghost use Rattle.vms_history.specs.Common.{most_threshold, Online, Dead, Absent};
    ghost use Rattle.vms_core.specs.Plain.{most_sets};
    ghost use Rattle.vms_core.specs.Cells.{counters_of, places_of, zones_of, cpu_at, diff_at, threshold_sets_at};
    ghost use Rattle.vms_core.specs.Cells.{mark_sets_at, with_threshold, with_mark, with_cpu, with_acknowledged};

    /// Sets a threshold, in pages, and counts that it was set, as `SetT` does.
    #[inline]
    pub fn set_threshold(&mut self, cpu: CpuId, place: PlaceId, t: u32)
        requires cpu { cpu.number < length self.old.cpu }
        requires place { place.number < places_of self.old }
        requires online { cpu_at self.old cpu.number ≡ Online }
        requires least { 1 ≤ t }
        requires most { t ≤ most_threshold }
        requires sets { threshold_sets_at self.old cpu.number place.number < most_sets }
        ensures { self.new ≡ with_threshold self.old cpu.number place.number t }
    {
        let at = cell(self.places, cpu, place.number as usize);
        let number = self.state.threshold_sets.get(at);
        self.state.threshold.set(at, t);
        self.state.threshold_sets.set(at, number + 1);
    }

    /// Sets a zone's drift mark, in pages, and counts that it was set, as `SetM` does. A mark may fall.
    #[inline]
    pub fn set_mark(&mut self, zone: PlaceId, m: u64)
        requires zone { zone.number < zones_of self.old }
        requires below { m < 2 ^ 43 }
        requires sets { mark_sets_at self.old zone.number < most_sets }
        ensures { self.new ≡ with_mark self.old zone.number m }
    {
        let at = zone.number as usize;
        let number = self.state.mark_sets.get(at);
        self.state.mark.set(at, m);
        self.state.mark_sets.set(at, number + 1);
    }

    /// Makes a dead CPU absent, as `SetO` does.
    #[inline]
    pub fn set_absent(&mut self, cpu: CpuId)
        requires cpu { cpu.number < length self.old.cpu }
        requires dead { cpu_at self.old cpu.number ≡ Dead }
        requires zeros { (k : ℕ) → k < counters_of self.old → diff_at self.old cpu.number k ≡ pos 0 }
        ensures { self.new ≡ with_cpu self.old cpu.number Absent }
    {
        self.state.cpu.set(cpu.number as usize, CpuState::Absent);
    }

    /// Acknowledges a CPU's threshold of a zone by the number of its sets, as `SetA` does.
    #[inline]
    pub fn acknowledge(&mut self, cpu: CpuId, zone: PlaceId, number: u32)
        requires cpu { cpu.number < length self.old.cpu }
        requires zone { zone.number < zones_of self.old }
        ensures { self.new ≡ with_acknowledged self.old cpu.number zone.number number }
    {
        let at = cell(self.state.mark.len(), cpu, zone.number as usize);
        self.state.acknowledged.set(at, Some(number));
    }
}
