use crate::online::is_online;
use std::alloc::Global;
use std::marker::Model;
use vms_base::{CpuId, CpuState, Layout, Memory, PlaceId, Row};
use vms_core::{Plain, State};

/// The largest threshold that each CPU may still be using in each zone, in pages, as the control pass knows it by its
/// own steps. The kernel keeps no such numbers.
#[derive(Debug, Drop)]
pub struct Peaks {
    /// By CPU and then zone.
    largest: Row<u32>,
}

impl Model for Peaks {
    ghost use Rattle.std.specs.Prelude.{ℕ, ◌≤◌, List, slice_index_or};
    ghost use Rattle.vms_calls.specs.Common.{most_threshold};

    ghost Value = { List ℕ };

    ghost view = { λ peaks. peaks.largest };

    ghost invariant = { λ peaks. (n : ℕ) → slice_index_or peaks.largest n 0 ≤ most_threshold };
}

impl Peaks {
    ghost use Rattle.std.specs.Prelude.{◌≡◌, ◌*◌, ◌≤◌, [], IfOk, List};
    ghost use Rattle.vms_calls.specs.Common.{ZoneSize, IsCpu, IsZone, most_threshold, IsOpening, HasShape};
    ghost use Rattle.vms_plain_control.specs.KnownPeaks.{HasAllPeaks, KnowsPeaks, peak_in, with_peak};
    ghost use Rattle.vms_plain_control.specs.OnlineCpus.{hidden_by, peaks_lowered, online_in, peaks_raised};

    /// The peaks with which a phase begins: the largest of a CPU's threshold in a zone and of its differentials there.
    pub fn make(alloc: Global, layout: &Layout, state: &State) -> Result<Peaks, Memory>
        requires { IsOpening layout.now state.now }
        ensures { IfOk result (λ peaks. (sizes : List ZoneSize) →
            KnowsPeaks (record { layout = layout.now; sizes = sizes; base = state.now }) [] peaks) }
    {
        let zones = layout.zones().len();
        let cells = layout.cpus() as usize * zones;
        let mut largest = Vec::with_capacity(alloc, cells)?;
        for cell in 0..cells {
            let cpu = CpuId {
                number: (cell / zones) as u32,
            };
            let zone = PlaceId {
                number: (cell % zones) as u32,
            };
            largest.push(opening_peak(state, layout, cpu, zone))?;
        }
        Ok(Peaks {
            largest: Row::make(largest),
        })
    }

    /// The peak of a CPU in a zone, in pages.
    #[inline]
    fn at(&self, layout: &Layout, cpu: CpuId, zone: PlaceId) -> u32
        requires full { HasAllPeaks layout.now self.now }
        requires cpu { IsCpu layout.now cpu.number }
        requires zone { IsZone layout.now zone.number }
        ensures value { result ≡ peak_in layout.now self.now cpu.number zone.number }
        ensures most { result ≤ most_threshold }
    {
        self.largest.get(cell(layout, cpu, zone))
    }

    #[inline]
    fn set(&mut self, layout: &Layout, cpu: CpuId, zone: PlaceId, peak: u32)
        requires full { HasAllPeaks layout.now self.old }
        requires cpu { IsCpu layout.now cpu.number }
        requires zone { IsZone layout.now zone.number }
        requires most { peak ≤ most_threshold }
        ensures { self.new ≡ with_peak layout.now cpu.number zone.number peak self.old }
    {
        self.largest.set(cell(layout, cpu, zone), peak);
    }

    /// The online CPUs may use this threshold of a zone from now on.
    pub(crate) fn raise(&mut self, pages: &Plain, layout: &Layout, zone: PlaceId, threshold: u32)
        requires shaped { HasShape layout.now pages.now }
        requires full { HasAllPeaks layout.now self.old }
        requires zone { IsZone layout.now zone.number }
        requires most { threshold ≤ most_threshold }
        ensures raised { self.new
            ≡ peaks_raised layout.now zone.number threshold (online_in pages.now) self.old }
        ensures full { HasAllPeaks layout.now self.new }
    {
        for number in 0..layout.cpus() {
            let cpu = CpuId { number };
            if is_online(pages.load_state(cpu)) {
                let before = self.at(layout, cpu, zone);
                self.set(layout, cpu, zone, before.max(threshold));
            }
        }
    }

    /// Looks what the online CPUs acknowledged of a zone. One that acknowledged the threshold that stands uses no
    /// larger one any more.
    pub(crate) fn lower(&mut self, pages: &Plain, layout: &Layout, zone: PlaceId)
        requires shaped { HasShape layout.now pages.now }
        requires full { HasAllPeaks layout.now self.old }
        requires zone { IsZone layout.now zone.number }
        ensures lowered { self.new
            ≡ peaks_lowered layout.now pages.now zone.number (online_in pages.now) self.old }
        ensures full { HasAllPeaks layout.now self.new }
    {
        for number in 0..layout.cpus() {
            let cpu = CpuId { number };
            if is_online(pages.load_state(cpu)) {
                let newest = pages.load_threshold(cpu, zone);
                if is_number(pages.load_acknowledged(cpu, zone), newest.number) {
                    self.set(layout, cpu, zone, newest.t);
                }
            }
        }
    }

    /// What the CPUs that are online or dead may hide of a zone together, in pages.
    pub(crate) fn hidden(&self, pages: &Plain, layout: &Layout, zone: PlaceId) -> u64
        requires shaped { HasShape layout.now pages.now }
        requires full { HasAllPeaks layout.now self.now }
        requires zone { IsZone layout.now zone.number }
        ensures value { result ≡ hidden_by layout.now pages.now self.now zone.number }
        ensures most { result ≤ 128 * 125 }
    {
        let mut sum = 0;
        for number in 0..layout.cpus() {
            let cpu = CpuId { number };
            match pages.load_state(cpu) {
                CpuState::Online | CpuState::Dead => sum += u64::from(self.at(layout, cpu, zone)),
                CpuState::Absent => {}
            }
        }
        sum
    }
}

ghost use Rattle.std.specs.Prelude.{◌≡◌, ◌*◌, ◌<◌, ◌≤◌, length};
ghost use Rattle.vms_base.specs.Places as places;
ghost use Rattle.vms_calls.specs.Common.{IsCpu, IsZone, most_threshold, IsOpening};
ghost use Rattle.vms_core.specs.Peaks as cores;

/// Where the number of a CPU and a zone stands in a list by CPU and then zone.
#[inline]
fn cell(layout: &Layout, cpu: CpuId, zone: PlaceId) -> usize
    requires cpu { IsCpu layout.now cpu.number }
    requires zone { IsZone layout.now zone.number }
    ensures value { result ≡ places.cell (length layout.now.zones) cpu.number zone.number }
    ensures within { result < layout.now.cpus * length layout.now.zones }
{
    cpu.number as usize * layout.zones().len() + zone.number as usize
}

/// Whether an acknowledgement names this number of sets.
#[inline]
fn is_number(found: Option<u32>, number: u32) -> bool
    ensures { result ≡ cores.is_number found number }
{
    match found {
        Some(named) => named == number,
        None => false,
    }
}

/// The largest of a CPU's threshold in a zone and of its differentials there, in pages.
fn opening_peak(state: &State, layout: &Layout, cpu: CpuId, zone: PlaceId) -> u32
    requires opening { IsOpening layout.now state.now }
    requires cpu { IsCpu layout.now cpu.number }
    requires zone { IsZone layout.now zone.number }
    ensures value { result ≡ cores.opening_peak layout.now state.now cpu.number zone.number }
    ensures most { result ≤ most_threshold }
{
    let mut peak = state.threshold_at(layout, cpu, zone).t;
    for position in 0..layout.positions() {
        let counter = layout.counter(zone, position);
        peak = peak.max(state.diff_at(layout, cpu, counter).unsigned_abs() as u32);
    }
    peak
}
