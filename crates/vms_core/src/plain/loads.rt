use super::{cell, eight_from};
use crate::{MarkRead, Plain, Threshold};
use vms_base::{CounterId, CpuId, CpuState, Diffs, GroupId, ItemId, PlaceId};

impl Plain {
    ghost use Rattle.std.specs.Prelude.{◌≡◌, ◌/◌, ◌^◌, ◌<◌, ◌≤◌, length};
    ghost use Rattle.vms_history.specs.Common.{most_threshold};
    ghost use Rattle.vms_core.specs.Cells.{counters_of, places_of, zones_of, TellsGroup, cpu_at, threshold_at};
    ghost use Rattle.vms_core.specs.Cells.{threshold_sets_at, mark_at, mark_sets_at, acknowledged_at, value_at};
    ghost use Rattle.vms_core.specs.Cells.{system_at};

    /// The threshold of a CPU in a place, as `LoadT` tells it.
    #[inline]
    pub fn load_threshold(&self, cpu: CpuId, place: PlaceId) -> Threshold
        requires cpu { cpu.number < length self.now.cpu }
        requires place { place.number < places_of self.now }
        ensures t { result.t ≡ threshold_at self.now cpu.number place.number }
        ensures number { result.number ≡ threshold_sets_at self.now cpu.number place.number }
        ensures bound { result.t ≤ most_threshold }
    {
        let at = cell(self.places, cpu, place.number as usize);
        Threshold {
            t: self.state.threshold.get(at),
            number: self.state.threshold_sets.get(at),
        }
    }

    /// The differentials of a CPU in a group, as `LoadD` tells them.
    #[inline]
    pub fn load_diffs(&self, cpu: CpuId, group: GroupId) -> Diffs
        requires cpu { cpu.number < length self.now.cpu }
        requires group { group.number < counters_of self.now / 8 }
        ensures { TellsGroup self.now cpu.number group.number result.values }
    {
        let at = cell(self.counters, cpu, 8 * group.number as usize);
        Diffs {
            values: eight_from(self.state.diff.as_slice(), at),
        }
    }

    /// The global value of a counter, as `LoadG` tells it.
    #[inline]
    pub fn load_place(&self, counter: CounterId) -> i64
        requires { counter.number < counters_of self.now }
        ensures { result ≡ value_at self.now counter.number }
    {
        self.state.value_at(counter)
    }

    /// The system-wide value of an item, as `LoadS` tells it.
    #[inline]
    pub fn load_system(&self, item: ItemId) -> i64
        requires { item.number < length self.now.system }
        ensures { result ≡ system_at self.now item.number }
    {
        self.state.system_at(item)
    }

    /// The drift mark of a zone, as `LoadM` tells it.
    #[inline]
    pub fn load_mark(&self, zone: PlaceId) -> MarkRead
        requires { zone.number < zones_of self.now }
        ensures mark { result.mark ≡ mark_at self.now zone.number }
        ensures number { result.number ≡ mark_sets_at self.now zone.number }
        ensures bound { result.mark < 2 ^ 43 }
    {
        self.state.mark_at(zone)
    }

    /// Whether a CPU is online, dead or absent, as `LoadO` tells it.
    #[inline]
    pub fn load_state(&self, cpu: CpuId) -> CpuState
        requires { cpu.number < length self.now.cpu }
        ensures { result ≡ cpu_at self.now cpu.number }
    {
        self.state.cpu_at(cpu)
    }

    /// The number that a CPU acknowledged last of a zone's threshold, as `LoadA` tells it: none where it has
    /// acknowledged nothing.
    #[inline]
    pub fn load_acknowledged(&self, cpu: CpuId, zone: PlaceId) -> Option<u32>
        requires cpu { cpu.number < length self.now.cpu }
        requires zone { zone.number < zones_of self.now }
        ensures { result ≡ acknowledged_at self.now cpu.number zone.number }
    {
        let at = cell(self.state.mark.len(), cpu, zone.number as usize);
        self.state.acknowledged.get(at)
    }
}
