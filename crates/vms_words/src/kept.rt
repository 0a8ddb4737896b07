ghost use Rattle.std.specs.Prelude.{◌≡◌, ◌<◌};
ghost use Rattle.vms_calls.specs.Common.{IsOpening, IsLayout};
ghost use Rattle.vms_core.specs.Peaks as cores;

use crate::spots::{cell_from, row_and_column};
use std::alloc::Global;
use vms_base::{CpuId, CpuState, Layout, Memory, PlaceId, Row};
use vms_core::State;

/// What the control pass keeps in memory, since it alone changes it: thresholds, how often they and the marks were set,
/// the CPUs' states, and the peaks that follow from its steps.
#[derive(Drop)]
pub(crate) struct Settings {
    /// The largest threshold that each CPU may still be using in each zone, in pages, by CPU and then zone.
    pub peaks: Row<u32>,
    /// The thresholds by CPU and then place, in pages.
    pub thresholds: Row<u32>,
    /// How often each threshold was set in this phase, by CPU and then place.
    pub threshold_sets: Row<u32>,
    /// How often each mark was set in this phase, by zone.
    pub mark_sets: Row<u32>,
    /// Whether each CPU is online, dead or absent.
    pub cpus: Row<CpuState>,
    /// The largest number of sets of any one threshold or mark.
    pub largest_sets: u32,
}

impl Settings {
    ghost use Rattle.std.specs.Prelude.{[], IfOk, List, length, slice_index_or};
    ghost use Rattle.vms_calls.specs.Common.{ZoneSize, state_at, IsCpu, IsPlace, IsZone};
    ghost use Rattle.vms_core.specs.Plain as limits;
    ghost use Rattle.vms_words.specs.KeptSettings.{IsKept, KeepsSettings, kept_peak, kept_sets, kept_sum};
    ghost use Rattle.vms_words.specs.KeptSettings.{with_kept_threshold, with_kept_mark, with_kept_peak};

    /// The settings with which a phase begins.
    pub fn opening(alloc: Global, layout: &Layout, state: &State) -> Result<Settings, Memory>
        requires layout { IsLayout layout.now }
        requires opening { IsOpening layout.now state.now }
        ensures { IfOk result (λ kept. (sizes : List ZoneSize) →
            KeepsSettings
            (record { layout = layout.now; sizes = sizes; base = state.now }) [] kept) }
    {
        Ok(Settings {
            peaks: opening_peaks(alloc, layout, state)?,
            thresholds: Row::from_slice(alloc, state.threshold.as_slice())?,
            threshold_sets: Row::from_slice(alloc, state.threshold_sets.as_slice())?,
            mark_sets: Row::from_slice(alloc, state.mark_sets.as_slice())?,
            cpus: Row::from_slice(alloc, state.cpu.as_slice())?,
            largest_sets: 0,
        })
    }

    /// The peak of a CPU in a zone, in pages.
    #[inline]
    pub fn peak_at(&self, layout: &Layout, cpu: CpuId, zone: PlaceId) -> u32
        requires layout { IsLayout layout.now }
        requires kept { IsKept layout.now self.now }
        requires cpu { IsCpu layout.now cpu.number }
        requires zone { IsZone layout.now zone.number }
        ensures { result ≡ kept_peak layout.now self.now cpu.number zone.number }
    {
        let at = cell_from(0, layout.zones().len(), cpu, zone.number as usize);
        self.peaks.get(at)
    }

    /// How often a threshold was set in this phase.
    #[inline]
    pub fn sets_at(&self, layout: &Layout, cpu: CpuId, place: PlaceId) -> u32
        requires layout { IsLayout layout.now }
        requires kept { IsKept layout.now self.now }
        requires cpu { IsCpu layout.now cpu.number }
        requires place { IsPlace layout.now place.number }
        ensures { result ≡ kept_sets layout.now self.now cpu.number place.number }
    {
        let at = cell_from(0, layout.places() as usize, cpu, place.number as usize);
        self.threshold_sets.get(at)
    }

    /// Whether a CPU is online, dead or absent.
    #[inline]
    fn cpu_at(&self, cpu: CpuId) -> CpuState
        requires { cpu.number < length self.now.cpus }
        ensures { result ≡ state_at self.now.cpus cpu.number }
    {
        self.cpus.get(cpu.number as usize)
    }

    /// What the CPUs that are online or dead may hide of a zone together, in pages.
    pub fn hidden(&self, layout: &Layout, zone: PlaceId) -> u64
        requires layout { IsLayout layout.now }
        requires kept { IsKept layout.now self.now }
        requires zone { IsZone layout.now zone.number }
        ensures { result ≡ kept_sum layout.now self.now zone.number }
    {
        let mut sum = 0;
        for number in 0..layout.cpus() {
            let cpu = CpuId { number };
            match self.cpu_at(cpu) {
                CpuState::Online | CpuState::Dead => {
                    sum += u64::from(self.peak_at(layout, cpu, zone));
                }
                CpuState::Absent => {}
            }
        }
        sum
    }

    /// Keeps that a threshold was set. One of a zone may raise the CPU's peak there.
    #[inline]
    pub fn keep_threshold(&mut self, layout: &Layout, cpu: CpuId, place: PlaceId, t: u32)
        requires layout { IsLayout layout.now }
        requires kept { IsKept layout.now self.old }
        requires cpu { IsCpu layout.now cpu.number }
        requires place { IsPlace layout.now place.number }
        requires sets { kept_sets layout.now self.old cpu.number place.number < limits.most_sets }
        ensures { self.new ≡ with_kept_threshold layout.now cpu.number place.number t self.old }
    {
        let at = cell_from(0, layout.places() as usize, cpu, place.number as usize);
        let number = self.threshold_sets.get(at) + 1;
        self.thresholds.set(at, t);
        self.threshold_sets.set(at, number);
        self.largest_sets = number.max(self.largest_sets);
        let zones = layout.zones().len();
        if (place.number as usize) < zones {
            let peak_at = cell_from(0, zones, cpu, place.number as usize);
            let before = self.peaks.get(peak_at);
            self.peaks.set(peak_at, t.max(before));
        }
    }

    /// Keeps that a mark was set.
    #[inline]
    pub fn keep_mark(&mut self, layout: &Layout, zone: PlaceId)
        requires kept { IsKept layout.now self.old }
        requires zone { IsZone layout.now zone.number }
        requires sets { slice_index_or self.old.mark_sets zone.number 0 < limits.most_sets }
        ensures { self.new ≡ with_kept_mark zone.number self.old }
    {
        let at = zone.number as usize;
        let number = self.mark_sets.get(at) + 1;
        self.mark_sets.set(at, number);
        self.largest_sets = self.largest_sets.max(number);
    }

    /// Keeps whether a CPU was found to have acknowledged the newest threshold of a zone. If so, it uses no larger one
    /// any more.
    #[inline]
    pub fn keep_found(&mut self, layout: &Layout, cpu: CpuId, zone: PlaceId, newest: bool)
        requires layout { IsLayout layout.now }
        requires kept { IsKept layout.now self.old }
        requires cpu { IsCpu layout.now cpu.number }
        requires zone { IsZone layout.now zone.number }
        ensures { self.new ≡ with_kept_peak layout.now cpu.number zone.number newest self.old }
    {
        if newest {
            let at = cell_from(0, layout.places() as usize, cpu, zone.number as usize);
            let threshold = self.thresholds.get(at);
            let peak_at = cell_from(0, layout.zones().len(), cpu, zone.number as usize);
            self.peaks.set(peak_at, threshold);
        }
    }
}

/// Whether an acknowledgement names this number of sets.
#[inline]
pub(crate) fn is_number(found: Option<u32>, number: u32) -> bool
    ensures { result ≡ cores.is_number found number }
{
    match found {
        Some(named) => named == number,
        None => false,
    }
}

ghost use Rattle.std.specs.Prelude.{ℕ, ◌/◌, ◌%◌, ◌*◌, ◌≤◌, length, slice_index_or, IfOk};
ghost use Rattle.vms_calls.specs.Common.{IsCpu, IsZone, most_threshold};

/// The peaks with which a phase begins.
fn opening_peaks(alloc: Global, layout: &Layout, state: &State) -> Result<Row<u32>, Memory>
    requires layout { IsLayout layout.now }
    requires opening { IsOpening layout.now state.now }
    ensures len { IfOk result (λ peaks. length peaks ≡ layout.now.cpus * length layout.now.zones) }
    ensures each { IfOk result (λ peaks. (n : ℕ) → n < layout.now.cpus * length layout.now.zones →
        slice_index_or peaks n 0 ≡ cores.opening_peak layout.now state.now (n / length layout.now.zones)
        (n % length layout.now.zones)) }
{
    let zones = layout.zones().len();
    let cells = layout.cpus() as usize * zones;
    let mut peaks = Row::filled(alloc, cells, 0)?;
    for at in 0..cells {
        let (cpu, zone) = row_and_column(at, zones);
        peaks.set(
            at,
            opening_peak(layout, state, cpu, PlaceId { number: zone }),
        );
    }
    Ok(peaks)
}

/// The largest of a CPU's threshold in a zone and of its differentials there, in pages.
fn opening_peak(layout: &Layout, state: &State, cpu: CpuId, zone: PlaceId) -> u32
    requires opening { IsOpening layout.now state.now }
    requires cpu { IsCpu layout.now cpu.number }
    requires zone { IsZone layout.now zone.number }
    ensures value { result ≡ cores.opening_peak layout.now state.now cpu.number zone.number }
    ensures most { result ≤ most_threshold }
{
    let mut peak = state.threshold_at(layout, cpu, zone).t;
    for position in 0..layout.positions() {
        let counter = layout.counter(zone, position);
        peak = peak.max(state.diff_at(layout, cpu, counter).unsigned_abs() as u32);
    }
    peak
}
