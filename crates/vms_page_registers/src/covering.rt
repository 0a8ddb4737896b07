//! Whether the marks cover what the CPUs may hide as a history begins.

ghost use Rattle.std.specs.Prelude.{◌≡◌, ◌≤◌, ◌^◌, ◌↔◌, ℕ, [], IsTrue, length};
ghost use Rattle.vms_history.specs.Common.{Covers, IsCpu, IsZone, size_at};
ghost use Rattle.vms_core.specs.Common.{HasShape, cpu_at, cpu_in, if_present, mark_at, peak, peak_sum};

use vms_base::{CpuId, CpuState, PlaceId, ZoneSize};
use vms_core::Facts;
use vms_page_peaks::{covers, opening_peak};

/// Whether every mark covers what the CPUs may hide.
pub(crate) fn is_covered(facts: &Facts) -> bool
    requires shaped { HasShape facts.now.layout facts.now.base }
    requires sizes { length facts.now.sizes ≡ length facts.now.layout.zones }
    ensures { IsTrue result ↔ ((g : ℕ) → IsZone facts.now.layout g →
        Covers (size_at facts.now.sizes g) (mark_at facts.now.base g) (peak_sum facts.now g [])) }
{
    for number in 0..facts.layout.zones().len() as u32 {
        let zone = PlaceId { number };
        let mark = facts.base.mark.get(number as usize);
        if !covers(size_of_zone(facts, zone), mark, opening_sum(facts, zone)) {
            return false;
        }
    }
    true
}

/// The size of a zone.
fn size_of_zone(facts: &Facts, zone: PlaceId) -> ZoneSize
    requires sizes { length facts.now.sizes ≡ length facts.now.layout.zones }
    requires zone { IsZone facts.now.layout zone.number }
    ensures { result ≡ size_at facts.now.sizes zone.number }
{
    facts.sizes.get(zone.number as usize)
}

/// What the CPUs that are online or dead may hide of a zone together, in pages.
fn opening_sum(facts: &Facts, zone: PlaceId) -> u128
    requires shaped { HasShape facts.now.layout facts.now.base }
    requires zone { IsZone facts.now.layout zone.number }
    ensures value { result ≡ peak_sum facts.now zone.number [] }
    ensures bound { result ≤ 2 ^ 96 }
{
    let mut sum: u128 = 0;
    for number in 0..facts.layout.cpus() {
        sum += opening_part(facts, CpuId { number }, zone) as u128;
    }
    sum
}

/// What a CPU may hide of a zone: nothing where it is absent.
fn opening_part(facts: &Facts, cpu: CpuId, zone: PlaceId) -> u64
    requires shaped { HasShape facts.now.layout facts.now.base }
    requires cpu { IsCpu facts.now.layout cpu.number }
    requires zone { IsZone facts.now.layout zone.number }
    ensures { result ≡ if_present (cpu_in facts.now cpu.number []) (peak facts.now cpu.number zone.number []) }
{
    match state_of(facts, cpu) {
        CpuState::Absent => 0,
        _ => opening_peak(facts, cpu, zone),
    }
}

/// Whether a CPU is online, dead or absent.
fn state_of(facts: &Facts, cpu: CpuId) -> CpuState
    requires shaped { HasShape facts.now.layout facts.now.base }
    requires cpu { IsCpu facts.now.layout cpu.number }
    ensures { result ≡ cpu_at facts.now.base cpu.number }
{
    facts.base.cpu.get(cpu.number as usize)
}
