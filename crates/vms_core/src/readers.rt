use crate::plain::{cell, eight_from};
use crate::{MarkRead, State, Threshold};
use vms_base::{CounterId, CpuId, CpuState, Diffs, GroupId, ItemId, Layout, PlaceId};

impl State {
    ghost use Rattle.std.specs.Prelude.{◌≡◌, ◌<◌, length};
    ghost use Rattle.vms_history.specs.Common.{AreBytes, IsCpu, IsPlace, IsZone, IsCounter, IsGroup};
    ghost use Rattle.vms_core.specs.Cells as cells;
    ghost use Rattle.vms_core.specs.Cells.{HasShape, TellsGroup};

    /// The global value of a counter, in pages.
    #[inline]
    pub fn value_at(&self, counter: CounterId) -> i64
        requires { counter.number < cells.counters_of self.now }
        ensures { result ≡ cells.value_at self.now counter.number }
    {
        self.place.get(counter.number as usize)
    }

    /// The system-wide value of an item, in pages.
    #[inline]
    pub fn system_at(&self, item: ItemId) -> i64
        requires { item.number < length self.now.system }
        ensures { result ≡ cells.system_at self.now item.number }
    {
        self.system.get(item.number as usize)
    }

    /// The differential of a CPU for a counter, in pages.
    #[inline]
    pub fn diff_at(&self, layout: &Layout, cpu: CpuId, counter: CounterId) -> i64
        requires shaped { HasShape layout.now self.now }
        requires cpu { IsCpu layout.now cpu.number }
        requires counter { IsCounter layout.now counter.number }
        ensures { result ≡ cells.diff_at self.now cpu.number counter.number }
    {
        let width = layout.counters() as usize;
        self.diff.get(cell(width, cpu, counter.number as usize))
    }

    /// The differentials of a CPU in a group.
    #[inline]
    pub fn diffs_at(&self, layout: &Layout, cpu: CpuId, group: GroupId) -> Diffs
        requires shaped { HasShape layout.now self.now }
        requires bytes { AreBytes self.now.diff }
        requires cpu { IsCpu layout.now cpu.number }
        requires group { IsGroup layout.now group.number }
        ensures { TellsGroup self.now cpu.number group.number result.values }
    {
        let width = layout.counters() as usize;
        let at = cell(width, cpu, 8 * group.number as usize);
        Diffs {
            values: eight_from(self.diff.as_slice(), at),
        }
    }

    /// The threshold of a CPU in a place.
    #[inline]
    pub fn threshold_at(&self, layout: &Layout, cpu: CpuId, place: PlaceId) -> Threshold
        requires shaped { HasShape layout.now self.now }
        requires cpu { IsCpu layout.now cpu.number }
        requires place { IsPlace layout.now place.number }
        ensures t { result.t ≡ cells.threshold_at self.now cpu.number place.number }
        ensures number { result.number ≡ cells.threshold_sets_at self.now cpu.number place.number }
    {
        let at = cell(layout.places() as usize, cpu, place.number as usize);
        Threshold {
            t: self.threshold.get(at),
            number: self.threshold_sets.get(at),
        }
    }

    /// The drift mark of a zone.
    #[inline]
    pub fn mark_at(&self, zone: PlaceId) -> MarkRead
        requires zone { zone.number < cells.zones_of self.now }
        requires numbered { length self.now.mark_sets ≡ length self.now.mark }
        ensures mark { result.mark ≡ cells.mark_at self.now zone.number }
        ensures number { result.number ≡ cells.mark_sets_at self.now zone.number }
    {
        let at = zone.number as usize;
        MarkRead {
            mark: self.mark.get(at),
            number: self.mark_sets.get(at),
        }
    }

    /// Whether a CPU is online, dead or absent.
    #[inline]
    pub fn cpu_at(&self, cpu: CpuId) -> CpuState
        requires { cpu.number < length self.now.cpu }
        ensures { result ≡ cells.cpu_at self.now cpu.number }
    {
        self.cpu.get(cpu.number as usize)
    }

    /// The number that a CPU acknowledged last of a zone's threshold: none where it has acknowledged nothing.
    #[inline]
    pub fn acknowledged_at(&self, layout: &Layout, cpu: CpuId, zone: PlaceId) -> Option<u32>
        requires shaped { HasShape layout.now self.now }
        requires cpu { IsCpu layout.now cpu.number }
        requires zone { IsZone layout.now zone.number }
        ensures { result ≡ cells.acknowledged_at self.now cpu.number zone.number }
    {
        let zones = layout.zones().len();
        self.acknowledged
            .get(cell(zones, cpu, zone.number as usize))
    }
}
