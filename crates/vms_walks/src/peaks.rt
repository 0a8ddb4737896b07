ghost use Rattle.std.specs.Prelude.{◌≡◌};
ghost use Rattle.vms_world.specs.Common.{Facts, IsCpu, IsZone, cpu_in, peak};
ghost use Rattle.vms_core.specs.Pages.{History, IsLegal};
ghost use Rattle.vms_walks.specs.Peaks.{peak_told};

use vms_base::{CpuId, Layout, PlaceId};

/// What tells the peaks after a history of the page counters.
pub trait ZonePeaks {
    // The peaks are those after a history.
    ghost Keeps: { Self → Facts → History → Type 0 };

    /// The largest threshold that a CPU may still be using in a zone, in pages: none where the CPU is absent.
    fn peak(&self, layout: &Layout, cpu: CpuId, zone: PlaceId) -> Option<u64>
        requires cpu { IsCpu layout.now cpu.number }
        requires zone { IsZone layout.now zone.number }
        requires kept { (facts : Facts) × (h : History) × (facts.layout ≡ layout.now) × IsLegal facts h
            × Keeps self.now facts h }
        ensures { (facts : Facts) (h : History) → facts.layout ≡ layout.now → IsLegal facts h →
            Keeps self.now facts h →
            result ≡ peak_told (cpu_in facts cpu.number h) (peak facts cpu.number zone.number h) };
}
