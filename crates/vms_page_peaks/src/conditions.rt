//! Whether a change is affordable, and whether the mark of a zone covers what CPUs may hide.

use crate::PagePeaks;
use crate::covering::covers;
use vms_base::{CounterId, CpuId, PlaceId};
use vms_core::Facts;

const MOST_VOLUME: u64 = 1 << 48;

impl PagePeaks {
    ghost use Rattle.std.specs.Prelude.{◌≡◌, ◌<◌, ◌+◌, ◌≤◌, ◌↔◌, ◌∷◌, ℕ, IsTrue, unsigned_abs};
    ghost use Rattle.vms_history.specs.Common.{Covers, IsCounter, IsCpu, IsZone, Online, most_volume, size_at};
    ghost use Rattle.vms_core.specs.declared.steps.Step.TheVariants.{SetT};
    ghost use Rattle.vms_core.specs.Common.{History, IsLegal, cpu_in, peak, peak_sum, spent};
    ghost use Rattle.vms_core.specs.declared.steps.Facts.{Facts as FactsOf};
    ghost use Rattle.vms_page_peaks.specs.Keeps.{KeepsPeaks};

    /// Whether a CPU may change a counter by so much more.
    #[inline]
    pub fn may_spend(&self, facts: &Facts, cpu: CpuId, counter: CounterId, delta: i64) -> bool
        requires cpu { IsCpu facts.now.layout cpu.number }
        requires counter { IsCounter facts.now.layout counter.number }
        requires kept { (h : History) × KeepsPeaks facts.now h self.now }
        ensures { (h : History) → KeepsPeaks facts.now h self.now →
            IsTrue result ↔ (spent h cpu.number counter.number + unsigned_abs delta ≤ most_volume) }
    {
        let size = delta.unsigned_abs();
        let spent = self.spent.get(cpu.number as usize, counter.number as usize);
        size <= MOST_VOLUME && spent <= MOST_VOLUME - size
    }

    /// The largest threshold or differential that a CPU may hide by in a zone, in pages.
    #[inline]
    pub fn peak(&self, cpu: CpuId, zone: PlaceId) -> u64
        requires { (facts : FactsOf) × (h : History) × KeepsPeaks facts h self.now × IsCpu facts.layout cpu.number
            × IsZone facts.layout zone.number }
        ensures { (facts : FactsOf) (h : History) → KeepsPeaks facts h self.now → IsCpu facts.layout cpu.number →
            IsZone facts.layout zone.number → result ≡ peak facts cpu.number zone.number h }
    {
        self.peaks.get(cpu.number as usize, zone.number as usize)
    }

    /// Whether a mark covers what CPUs may hide of a zone once the threshold of a CPU that is online is set.
    pub fn covers_threshold(
        &self,
        facts: &Facts,
        cpu: CpuId,
        zone: PlaceId,
        t: u32,
        mark: u64,
    ) -> bool
        requires cpu { IsCpu facts.now.layout cpu.number }
        requires zone { IsZone facts.now.layout zone.number }
        requires kept { (h : History) × IsLegal facts.now h × KeepsPeaks facts.now h self.now
            × (cpu_in facts.now cpu.number h ≡ Online) }
        ensures { (h : History) (p : ℕ) → IsLegal facts.now h → KeepsPeaks facts.now h self.now →
            cpu_in facts.now cpu.number h ≡ Online →
            IsTrue result ↔ Covers (size_at facts.now.sizes zone.number) mark
            (peak_sum facts.now zone.number (record { caller = p; step = SetT cpu zone t } ∷ h)) }
    {
        let at = zone.number as usize;
        let peak = self.peaks.get(cpu.number as usize, at);
        let hidden = self.sums.get(at) - peak + peak.max(t as u64);
        covers(facts.sizes.get(at), mark, hidden as u128)
    }

    /// Whether a mark covers what CPUs may hide of a zone.
    pub fn covers_mark(&self, facts: &Facts, zone: PlaceId, mark: u64) -> bool
        requires zone { IsZone facts.now.layout zone.number }
        requires kept { (h : History) × IsLegal facts.now h × KeepsPeaks facts.now h self.now }
        ensures { (h : History) → IsLegal facts.now h → KeepsPeaks facts.now h self.now →
            IsTrue result ↔ Covers (size_at facts.now.sizes zone.number) mark
            (peak_sum facts.now zone.number h) }
    {
        let at = zone.number as usize;
        covers(facts.sizes.get(at), mark, self.sums.get(at) as u128)
    }
}
