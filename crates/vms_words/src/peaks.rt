ghost use Rattle.std.specs.Prelude.{◌≡◌, ◌≤◌, ℕ};
ghost use Rattle.vms_calls.specs.Common.{IsCpu, IsPlace, IsZone, mark_sets_at, threshold_sets_at, state_after};
ghost use Rattle.vms_core.specs.Peaks as cores;
ghost use Rattle.vms_seats.specs.Common.{IsFrom};
ghost use Rattle.vms_words.specs.KeptSettings.{largest_sets};

use crate::passes::ControlPass;
use crate::tables::PageTable;
use vms_base::{CpuId, PlaceId};

// What the control pass knows without a step, since it alone changes it.
impl PageTable {
    /// The largest threshold that a CPU may still be using in a zone, in pages.
    #[inline]
    pub fn peak(&self, pass: &ControlPass, cpu: CpuId, zone: PlaceId) -> u64
        requires table { IsFrom pass.now self.now }
        requires cpu { IsCpu self.now.facts.layout cpu.number }
        requires zone { IsZone self.now.facts.layout zone.number }
        ensures { result ≡ cores.peak self.now.facts cpu.number zone.number pass.now.seen }
    {
        u64::from(pass.kept.peak_at(&self.layout, cpu, zone))
    }

    /// What the CPUs that are online or dead may hide of a zone together, in pages.
    pub fn peak_sum(&self, pass: &ControlPass, zone: PlaceId) -> u64
        requires table { IsFrom pass.now self.now }
        requires zone { IsZone self.now.facts.layout zone.number }
        ensures { result ≡ cores.peak_sum self.now.facts zone.number pass.now.seen }
    {
        pass.kept.hidden(&self.layout, zone)
    }

    /// The largest number of times that any one threshold or mark was set in this phase.
    #[inline]
    pub fn most_sets(&self, pass: &ControlPass) -> u32
        requires { IsFrom pass.now self.now }
        ensures value { result
            ≡ largest_sets self.now.facts.layout (state_after self.now.facts pass.now.seen) }
        ensures thresholds { (c g : ℕ) →
            IsCpu self.now.facts.layout c → IsPlace self.now.facts.layout g →
            threshold_sets_at (state_after self.now.facts pass.now.seen) c g ≤ result }
        ensures marks { (g : ℕ) → IsZone self.now.facts.layout g →
            mark_sets_at (state_after self.now.facts pass.now.seen) g ≤ result }
    {
        pass.kept.largest_sets
    }
}
