ghost use Rattle.std.specs.Prelude.{◌≡◌, ◌<◌, ◌↔◌, ℕ, IsTrue, length, pos};
ghost use Rattle.vms_history.specs.Common.{IsCounter, IsCpu, IsGroup, IsItem, IsPlace, IsZone};
ghost use Rattle.vms_core.specs.Common.{HasShape, TellsGroup, acknowledged_at, cpu_at, diff_at, mark_at, mark_sets_at};
ghost use Rattle.vms_core.specs.Common.{system_at, threshold_at, threshold_sets_at, value_at};
ghost use Rattle.vms_page_words.specs.Words.{state_of};

use crate::cells::{counter_cell, group_cell, place_cell, zone_cell};
use vms_base::{CounterId, CpuId, CpuState, Diffs, GroupId, ItemId, PlaceId, Row};
use vms_core::Facts;

/// The numbers of the page counters that stand after a history, in pages of 4096 bytes. Unlike a `State` they count
/// sets up to the length of any history.
#[derive(Debug, Drop)]
pub struct PageWords {
    /// The global values by counter.
    pub(crate) place: Row<i64>,
    /// The system-wide values by item.
    pub(crate) system: Row<i64>,
    /// The differentials by CPU and then counter.
    pub(crate) diff: Row<i64>,
    /// The thresholds by CPU and then place.
    pub(crate) threshold: Row<u32>,
    /// The drift marks by zone.
    pub(crate) mark: Row<u64>,
    /// Whether each CPU is online, dead or absent.
    pub(crate) cpu: Row<CpuState>,
    /// The number of the threshold that a CPU acknowledged last, by CPU and then zone.
    pub(crate) acknowledged: Row<Option<u32>>,
    /// How often each threshold was set, by CPU and then place.
    pub(crate) threshold_sets: Row<u64>,
    /// How often each mark was set, by zone.
    pub(crate) mark_sets: Row<u64>,
}

impl PageWords {
    /// The threshold of a CPU in a place, in pages.
    #[inline]
    pub fn threshold(&self, facts: &Facts, cpu: CpuId, place: PlaceId) -> u32
        requires shaped { HasShape facts.now.layout (state_of self.now) }
        requires cpu { IsCpu facts.now.layout cpu.number }
        requires place { IsPlace facts.now.layout place.number }
        ensures { result ≡ threshold_at (state_of self.now) cpu.number place.number }
    {
        self.threshold.get(place_cell(&facts.layout, cpu, place))
    }

    /// How often the threshold of a CPU in a place was set.
    #[inline]
    pub fn threshold_sets(&self, facts: &Facts, cpu: CpuId, place: PlaceId) -> u64
        requires shaped { HasShape facts.now.layout (state_of self.now) }
        requires cpu { IsCpu facts.now.layout cpu.number }
        requires place { IsPlace facts.now.layout place.number }
        ensures { result ≡ threshold_sets_at (state_of self.now) cpu.number place.number }
    {
        self.threshold_sets
            .get(place_cell(&facts.layout, cpu, place))
    }

    /// The drift mark of a zone, in pages.
    #[inline]
    pub fn mark(&self, facts: &Facts, zone: PlaceId) -> u64
        requires shaped { HasShape facts.now.layout (state_of self.now) }
        requires zone { IsZone facts.now.layout zone.number }
        ensures { result ≡ mark_at (state_of self.now) zone.number }
    {
        self.mark.get(zone.number as usize)
    }

    /// How often the drift mark of a zone was set.
    #[inline]
    pub fn mark_sets(&self, facts: &Facts, zone: PlaceId) -> u64
        requires shaped { HasShape facts.now.layout (state_of self.now) }
        requires zone { IsZone facts.now.layout zone.number }
        ensures { result ≡ mark_sets_at (state_of self.now) zone.number }
    {
        self.mark_sets.get(zone.number as usize)
    }

    /// The global value of a counter, in pages.
    #[inline]
    pub fn value(&self, facts: &Facts, counter: CounterId) -> i64
        requires shaped { HasShape facts.now.layout (state_of self.now) }
        requires counter { IsCounter facts.now.layout counter.number }
        ensures { result ≡ value_at (state_of self.now) counter.number }
    {
        self.place.get(counter.number as usize)
    }

    /// The system-wide value of an item, in pages.
    #[inline]
    pub fn system(&self, facts: &Facts, item: ItemId) -> i64
        requires shaped { HasShape facts.now.layout (state_of self.now) }
        requires item { IsItem facts.now.layout item.number }
        ensures { result ≡ system_at (state_of self.now) item.number }
    {
        self.system.get(item.number as usize)
    }

    /// The differentials of a CPU in a group, in pages.
    pub fn group(&self, facts: &Facts, cpu: CpuId, group: GroupId) -> [i64; 8]
        requires shaped { HasShape facts.now.layout (state_of self.now) }
        requires cpu { IsCpu facts.now.layout cpu.number }
        requires group { IsGroup facts.now.layout group.number }
        ensures { TellsGroup (state_of self.now) cpu.number group.number result }
    {
        let start = group_cell(&facts.layout, cpu, group);
        let mut list = [0; 8];
        list.copy_from_slice(&self.diff.as_slice()[start..start + 8]);
        list
    }

    /// The number of a zone's threshold that a CPU acknowledged last: none where it has acknowledged nothing.
    #[inline]
    pub fn acknowledged(&self, facts: &Facts, cpu: CpuId, zone: PlaceId) -> Option<u32>
        requires shaped { HasShape facts.now.layout (state_of self.now) }
        requires cpu { IsCpu facts.now.layout cpu.number }
        requires zone { IsZone facts.now.layout zone.number }
        ensures { result ≡ acknowledged_at (state_of self.now) cpu.number zone.number }
    {
        self.acknowledged.get(zone_cell(&facts.layout, cpu, zone))
    }

    /// Whether a CPU is online, dead or absent.
    #[inline]
    pub fn cpu(&self, facts: &Facts, cpu: CpuId) -> CpuState
        requires shaped { HasShape facts.now.layout (state_of self.now) }
        requires cpu { IsCpu facts.now.layout cpu.number }
        ensures { result ≡ cpu_at (state_of self.now) cpu.number }
    {
        self.cpu.get(cpu.number as usize)
    }

    /// The same, where no facts are at hand.
    #[inline]
    pub fn state(&self, cpu: CpuId) -> CpuState
        requires { cpu.number < length (state_of self.now).cpu }
        ensures { result ≡ cpu_at (state_of self.now) cpu.number }
    {
        self.cpu.get(cpu.number as usize)
    }

    /// Whether these are the differentials of a CPU in a group.
    pub(crate) fn holds_list(&self, facts: &Facts, cpu: CpuId, group: GroupId, list: Diffs) -> bool
        requires shaped { HasShape facts.now.layout (state_of self.now) }
        requires cpu { IsCpu facts.now.layout cpu.number }
        requires group { IsGroup facts.now.layout group.number }
        ensures { IsTrue result ↔ TellsGroup (state_of self.now) cpu.number group.number list.values }
    {
        let start = group_cell(&facts.layout, cpu, group);
        for n in 0..8 {
            if self.diff.get(start + n) != list.values[n] {
                return false;
            }
        }
        true
    }

    /// Whether all differentials of a CPU are 0.
    pub(crate) fn hides_nothing(&self, facts: &Facts, cpu: CpuId) -> bool
        requires shaped { HasShape facts.now.layout (state_of self.now) }
        requires cpu { IsCpu facts.now.layout cpu.number }
        ensures { IsTrue result ↔ ((k : ℕ) → IsCounter facts.now.layout k
            → diff_at (state_of self.now) cpu.number k ≡ pos 0) }
    {
        for number in 0..facts.layout.counters() {
            let counter = CounterId { number };
            if self.diff.get(counter_cell(&facts.layout, cpu, counter)) != 0 {
                return false;
            }
        }
        true
    }
}
