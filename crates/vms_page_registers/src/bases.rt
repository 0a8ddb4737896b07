//! Whether a history may begin with these facts, and which CPUs passes may own.

ghost use Rattle.std.specs.Prelude.{◌≡◌, ◌<◌, ◌≤◌, ◌^◌, ◌↔◌, ℕ, All, IsTrue, unsigned_abs};
ghost use Rattle.vms_history.specs.Common.{IsCounter, IsCpu, IsItem, IsValidSize, IsZone, Online};
ghost use Rattle.vms_core.specs.Common.{HasShape, IsBase, IsOpening, MayOwn, cpu_at, mark_at, mark_sets_at, system_at};
ghost use Rattle.vms_core.specs.Common.{value_at};
ghost use Rattle.vms_page_registers.specs.Openings.{OpensCpu};

use crate::covering::is_covered;
use crate::openings::opens_cpu;
use vms_base::{CpuId, CpuState, Layout, ZoneSize};
use vms_core::{Facts, State};

/// Whether a history may begin with these facts.
pub(crate) fn is_base(facts: &Facts) -> bool
    ensures { IsTrue result ↔ IsBase facts.now }
{
    is_shaped(&facts.layout, &facts.base)
        && facts.sizes.len() == facts.layout.zones().len()
        && has_valid_sizes(facts)
        && is_opening(&facts.layout, &facts.base)
        && is_covered(facts)
}

/// Whether the lists of a state have the lengths of a layout.
fn is_shaped(layout: &Layout, state: &State) -> bool
    ensures { IsTrue result ↔ HasShape layout.now state.now }
{
    let cpus = layout.cpus() as usize;
    let zones = layout.zones().len();
    let counters = layout.counters() as usize;
    let places = layout.places() as usize;
    state.place.len() == counters
        && state.system.len() == layout.items() as usize
        && state.diff.len() == cpus * counters
        && state.threshold.len() == cpus * places
        && state.mark.len() == zones
        && state.cpu.len() == cpus
        && state.acknowledged.len() == cpus * zones
        && state.threshold_sets.len() == cpus * places
        && state.mark_sets.len() == zones
}

fn has_valid_sizes(facts: &Facts) -> bool
    ensures { IsTrue result ↔ All IsValidSize facts.now.sizes }
{
    facts
        .sizes
        .as_slice()
        .iter()
        .all(|size| is_valid_size(*size))
}

fn is_valid_size(size: ZoneSize) -> bool
    ensures { IsTrue result ↔ IsValidSize size }
{
    size.managed >= 1
        && size.managed <= 1 << 40
        && size.min <= size.low
        && size.low <= size.high
        && size.high <= 1 << 42
}

/// Whether a state may stand between two phases.
fn is_opening(layout: &Layout, state: &State) -> bool
    requires { HasShape layout.now state.now }
    ensures { IsTrue result ↔ IsOpening layout.now state.now }
{
    if !some_cpu_is_online(layout, state) {
        return false;
    }
    if !values_fit(layout, state) || !systems_fit(layout, state) {
        return false;
    }
    if !opens_cpus(layout, state) {
        return false;
    }
    marks_fit(layout, state) && no_mark_is_set(layout, state)
}

fn some_cpu_is_online(layout: &Layout, state: &State) -> bool
    requires { HasShape layout.now state.now }
    ensures { IsTrue result ↔ ((c : ℕ) × IsCpu layout.now c × (cpu_at state.now c ≡ Online)) }
{
    for number in 0..layout.cpus() {
        if state.cpu.get(number as usize) == CpuState::Online {
            return true;
        }
    }
    false
}

fn values_fit(layout: &Layout, state: &State) -> bool
    requires { HasShape layout.now state.now }
    ensures { IsTrue result ↔ ((k : ℕ) → IsCounter layout.now k → unsigned_abs (value_at state.now k) ≤ 2 ^ 60) }
{
    for number in 0..layout.counters() {
        if state.place.get(number as usize).unsigned_abs() > 1 << 60 {
            return false;
        }
    }
    true
}

fn systems_fit(layout: &Layout, state: &State) -> bool
    requires { HasShape layout.now state.now }
    ensures { IsTrue result ↔ ((i : ℕ) → IsItem layout.now i → unsigned_abs (system_at state.now i) ≤ 2 ^ 60) }
{
    for number in 0..layout.items() {
        if state.system.get(number as usize).unsigned_abs() > 1 << 60 {
            return false;
        }
    }
    true
}

fn opens_cpus(layout: &Layout, state: &State) -> bool
    requires { HasShape layout.now state.now }
    ensures { IsTrue result ↔ ((c : ℕ) → IsCpu layout.now c → OpensCpu layout.now state.now c) }
{
    for number in 0..layout.cpus() {
        if !opens_cpu(layout, state, CpuId { number }) {
            return false;
        }
    }
    true
}

fn marks_fit(layout: &Layout, state: &State) -> bool
    requires { HasShape layout.now state.now }
    ensures { IsTrue result ↔ ((g : ℕ) → IsZone layout.now g → mark_at state.now g < 2 ^ 43) }
{
    for g in 0..layout.zones().len() {
        if state.mark.get(g) >= 1 << 43 {
            return false;
        }
    }
    true
}

fn no_mark_is_set(layout: &Layout, state: &State) -> bool
    requires { HasShape layout.now state.now }
    ensures { IsTrue result ↔ ((g : ℕ) → IsZone layout.now g → mark_sets_at state.now g ≡ 0) }
{
    for g in 0..layout.zones().len() {
        if state.mark_sets.get(g) != 0 {
            return false;
        }
    }
    true
}

/// Whether a pass may begin that owns this CPU, or for `None` a control pass.
pub(crate) fn may_own(facts: &Facts, who: Option<CpuId>) -> bool
    requires { IsBase facts.now }
    ensures { IsTrue result ↔ MayOwn facts.now who }
{
    match who {
        Some(cpu) => {
            cpu.number < facts.layout.cpus()
                && facts.base.cpu.get(cpu.number as usize) == CpuState::Online
        }
        None => true,
    }
}
