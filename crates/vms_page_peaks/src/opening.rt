//! What CPUs may hide at the beginning of a history.

use crate::PagePeaks;
use std::alloc::Global;
use vms_base::{CpuId, CpuState, Memory, PlaceId, Row};
use vms_cells::Grid;
use vms_core::Facts;

impl PagePeaks {
    ghost use Rattle.std.specs.Prelude.{◌≡◌, [], IfOk};
    ghost use Rattle.vms_core.specs.Common.{IsBase};
    ghost use Rattle.vms_page_peaks.specs.Keeps.{KeepsPeaks};

    /// The peaks of a history without events.
    pub fn open(alloc: Global, facts: &Facts) -> Result<PagePeaks, Memory>
        requires { IsBase facts.now }
        ensures { IfOk result (KeepsPeaks facts.now []) }
    {
        let cpus = facts.layout.cpus() as usize;
        let spent = Grid::filled(alloc, cpus, facts.layout.counters() as usize, 0)?;
        let peaks = opening_peaks(alloc, facts)?;
        let sums = opening_sums(alloc, facts, &peaks)?;
        Ok(PagePeaks { spent, peaks, sums })
    }
}

ghost use Rattle.std.specs.Prelude.{◌≡◌, ◌≢◌, ◌<◌, ◌≤◌, ℕ, [], IfOk, length, slice_index_or};
ghost use Rattle.vms_history.specs.Common.{IsCpu, IsPlace, IsZone, most_threshold};
ghost use Rattle.vms_cells.specs.Cells.{HasCells, at};
ghost use Rattle.vms_core.specs.Common.{HasShape, IsBase, cpu_in, if_present, peak, peak_sum};
ghost use Rattle.vms_page_peaks.specs.Openings.{AreOpening};

/// The peaks at the beginning, by CPU and zone.
fn opening_peaks(alloc: Global, facts: &Facts) -> Result<Grid<u64>, Memory>
    requires { IsBase facts.now }
    ensures { IfOk result (AreOpening facts.now) }
{
    let cpus = facts.layout.cpus();
    let mut peaks = Grid::filled(alloc, cpus as usize, facts.layout.zones().len(), 0)?;
    for number in 0..cpus {
        open_cpu(&mut peaks, facts, CpuId { number });
    }
    Ok(peaks)
}

/// Sets the peaks of a CPU in all zones.
fn open_cpu(peaks: &mut Grid<u64>, facts: &Facts, cpu: CpuId)
    requires shaped { HasShape facts.now.layout facts.now.base }
    requires cells { HasCells facts.now.layout.cpus (length facts.now.layout.zones) peaks.old }
    requires cpu { IsCpu facts.now.layout cpu.number }
    ensures cells { HasCells facts.now.layout.cpus (length facts.now.layout.zones) peaks.new }
    ensures here { (g : ℕ) → IsZone facts.now.layout g → at peaks.new cpu.number g 0 ≡ peak facts.now cpu.number g [] }
    ensures others { (c g : ℕ) → IsZone facts.now.layout g → c ≢ cpu.number →
        at peaks.new c g 0 ≡ at peaks.old c g 0 }
{
    for number in 0..facts.layout.zones().len() as u32 {
        let peak = opening_peak(facts, cpu, PlaceId { number });
        peaks.set(cpu.number as usize, number as usize, peak);
    }
}

/// The largest of a CPU's threshold in a place and of its differentials there, as a history begins.
pub fn opening_peak(facts: &Facts, cpu: CpuId, place: PlaceId) -> u64
    requires shaped { HasShape facts.now.layout facts.now.base }
    requires cpu { IsCpu facts.now.layout cpu.number }
    requires place { IsPlace facts.now.layout place.number }
    ensures { result ≡ peak facts.now cpu.number place.number [] }
{
    let mut largest = 0;
    for n in 0..facts.layout.positions() {
        let diff = facts
            .base
            .diff_at(&facts.layout, cpu, facts.layout.counter(place, n));
        largest = diff.unsigned_abs().max(largest);
    }
    let threshold = facts.base.threshold_at(&facts.layout, cpu, place).t;
    largest.max(threshold as u64)
}

/// What the CPUs that are online or dead may hide, by zone.
fn opening_sums(alloc: Global, facts: &Facts, peaks: &Grid<u64>) -> Result<Row<u64>, Memory>
    requires base { IsBase facts.now }
    requires peaks { AreOpening facts.now peaks.now }
    ensures { IfOk result (λ sums. (length sums ≡ length facts.now.layout.zones)
        × ((g : ℕ) → IsZone facts.now.layout g → slice_index_or sums g 0 ≡ peak_sum facts.now g [])) }
{
    let zones = facts.layout.zones().len();
    let mut sums = Row::filled(alloc, zones, 0)?;
    for zone in 0..zones {
        sums.set(zone, opening_sum(facts, peaks, zone));
    }
    Ok(sums)
}

/// What the CPUs that are online or dead may hide of a zone together.
fn opening_sum(facts: &Facts, peaks: &Grid<u64>, zone: usize) -> u64
    requires base { IsBase facts.now }
    requires peaks { AreOpening facts.now peaks.now }
    requires zone { IsZone facts.now.layout zone }
    ensures { result ≡ peak_sum facts.now zone [] }
{
    let mut sum = 0;
    for number in 0..facts.layout.cpus() {
        sum += opening_part(facts, peaks, CpuId { number }, zone);
    }
    sum
}

/// What a CPU may hide of a zone: nothing where it is absent.
fn opening_part(facts: &Facts, peaks: &Grid<u64>, cpu: CpuId, zone: usize) -> u64
    requires base { IsBase facts.now }
    requires peaks { AreOpening facts.now peaks.now }
    requires cpu { IsCpu facts.now.layout cpu.number }
    requires zone { IsZone facts.now.layout zone }
    ensures value { result ≡ if_present (cpu_in facts.now cpu.number []) (peak facts.now cpu.number zone []) }
    ensures most { result ≤ most_threshold }
{
    match facts.base.cpu.get(cpu.number as usize) {
        CpuState::Absent => 0,
        _ => peaks.get(cpu.number as usize, zone),
    }
}
