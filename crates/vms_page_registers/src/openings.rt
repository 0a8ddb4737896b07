//! Whether the numbers of a CPU are those of a state between two phases.

ghost use Rattle.std.specs.Prelude.{◌≡◌, ◌<◌, ◌≤◌, ◌↔◌, ℕ, pos, None, IsTrue, unsigned_abs};
ghost use Rattle.vms_history.specs.Common.{IsCpu, IsPlace, IsZone, IsCounter, most_threshold};
ghost use Rattle.vms_core.specs.Cells as cells;
ghost use Rattle.vms_core.specs.Common.{HasShape};
ghost use Rattle.vms_page_registers.specs.Openings.{OpensCpu};

use vms_base::{CounterId, CpuId, CpuState, Layout, PlaceId};
use vms_core::State;

/// Whether the numbers of a CPU are those of a state between two phases.
pub(crate) fn opens_cpu(layout: &Layout, state: &State, cpu: CpuId) -> bool
    requires shaped { HasShape layout.now state.now }
    requires cpu { IsCpu layout.now cpu.number }
    ensures { IsTrue result ↔ OpensCpu layout.now state.now cpu.number }
{
    let is = state.cpu.get(cpu.number as usize);
    let least = if is == CpuState::Online { 1 } else { 0 };
    diffs_fit(layout, state, cpu)
        && (is != CpuState::Absent || hides_nothing(layout, state, cpu))
        && thresholds_fit(layout, state, cpu, least)
        && none_is_set(layout, state, cpu)
        && none_is_acknowledged(layout, state, cpu)
}

/// Whether no differential of a CPU is larger than a threshold may be.
fn diffs_fit(layout: &Layout, state: &State, cpu: CpuId) -> bool
    requires shaped { HasShape layout.now state.now }
    requires cpu { IsCpu layout.now cpu.number }
    ensures { IsTrue result ↔ ((k : ℕ) → IsCounter layout.now k →
        unsigned_abs (cells.diff_at state.now cpu.number k) ≤ most_threshold) }
{
    for number in 0..layout.counters() {
        if state
            .diff_at(layout, cpu, CounterId { number })
            .unsigned_abs()
            > 125
        {
            return false;
        }
    }
    true
}

/// Whether all differentials of a CPU are 0.
fn hides_nothing(layout: &Layout, state: &State, cpu: CpuId) -> bool
    requires shaped { HasShape layout.now state.now }
    requires cpu { IsCpu layout.now cpu.number }
    ensures { IsTrue result ↔ ((k : ℕ) → IsCounter layout.now k →
        cells.diff_at state.now cpu.number k ≡ pos 0) }
{
    for number in 0..layout.counters() {
        if state.diff_at(layout, cpu, CounterId { number }) != 0 {
            return false;
        }
    }
    true
}

/// Whether each threshold of a CPU is at least so large, and no larger than a threshold may be.
fn thresholds_fit(layout: &Layout, state: &State, cpu: CpuId, least: u32) -> bool
    requires shaped { HasShape layout.now state.now }
    requires cpu { IsCpu layout.now cpu.number }
    ensures { IsTrue result ↔ ((g : ℕ) → IsPlace layout.now g →
        (least ≤ cells.threshold_at state.now cpu.number g)
        × (cells.threshold_at state.now cpu.number g ≤ most_threshold)) }
{
    for number in 0..layout.places() {
        let t = state.threshold_at(layout, cpu, PlaceId { number }).t;
        if t < least || t > 125 {
            return false;
        }
    }
    true
}

/// Whether no threshold of a CPU was set.
fn none_is_set(layout: &Layout, state: &State, cpu: CpuId) -> bool
    requires shaped { HasShape layout.now state.now }
    requires cpu { IsCpu layout.now cpu.number }
    ensures { IsTrue result ↔ ((g : ℕ) → IsPlace layout.now g →
        cells.threshold_sets_at state.now cpu.number g ≡ 0) }
{
    for number in 0..layout.places() {
        if state.threshold_at(layout, cpu, PlaceId { number }).number != 0 {
            return false;
        }
    }
    true
}

/// Whether a CPU has acknowledged no threshold of a zone.
fn none_is_acknowledged(layout: &Layout, state: &State, cpu: CpuId) -> bool
    requires shaped { HasShape layout.now state.now }
    requires cpu { IsCpu layout.now cpu.number }
    ensures { IsTrue result ↔ ((g : ℕ) → IsZone layout.now g →
        cells.acknowledged_at state.now cpu.number g ≡ None) }
{
    for number in 0..layout.zones().len() as u32 {
        if state
            .acknowledged_at(layout, cpu, PlaceId { number })
            .is_some()
        {
            return false;
        }
    }
    true
}
