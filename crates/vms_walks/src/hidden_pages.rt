//! What CPUs may hide of a zone once it gets a threshold, and the mark that covers it.

ghost use Rattle.std.specs.Prelude.{◌≡◌, ℕ, ◌^◌, ◌≤◌, IfSome, Option};
ghost use Rattle.vms_world.specs.Common.{Facts, IsCpu, IsLayout, IsValidSize, IsZone, after, cpu_in, most_threshold};
ghost use Rattle.vms_world.specs.Common.{peak, threshold_steps};
ghost use Rattle.vms_core.specs.Pages.{History, IsLegal};
ghost use Rattle.vms_base.specs.Marks.{cover_mark_of, linux_mark_of};
ghost use Rattle.vms_core.specs.Peaks.{peak_sum};
ghost use Rattle.vms_cursors.specs.OnlineCpus.{flagged};
ghost use Rattle.vms_walks.specs.Peaks.{hidden_part, peak_told, raised_if};

use crate::ZonePeaks;
use vms_base::{CpuId, Layout, PlaceId, ZoneSize};
use vms_calc::{cover_mark, linux_mark};
use vms_cursors::OnlineCpus;

/// What the CPUs that are online or dead may hide of a zone together once these get a threshold, in pages.
pub(crate) fn hidden_with<K: ZonePeaks>(
    peaks: &K,
    layout: &Layout,
    zone: PlaceId,
    online: &OnlineCpus,
    threshold: u32,
) -> u64
    requires layout { IsLayout layout.now }
    requires zone { IsZone layout.now zone.number }
    requires kept { (facts : Facts) × (h : History) × (facts.layout ≡ layout.now) × IsLegal facts h
        × K.Keeps peaks.now facts h }
    ensures value { (facts : Facts) (p : ℕ) (h : History) → facts.layout ≡ layout.now → IsLegal facts h →
        K.Keeps peaks.now facts h → result ≡ peak_sum facts zone.number
        (after p (threshold_steps zone.number threshold (flagged online.now.flags 0 layout.now.cpus)) h) }
    ensures most { result ≤ 2 ^ 62 }
{
    let mut sum = 0;
    for number in 0..layout.cpus() {
        let told = peak_in_range(peaks, layout, CpuId { number }, zone);
        sum += part(online.flags[number as usize], threshold, told);
    }
    sum
}

/// The peak of a CPU in a zone: none where the CPU is absent.
fn peak_in_range<K: ZonePeaks>(peaks: &K, layout: &Layout, cpu: CpuId, zone: PlaceId) -> Option<u64>
    requires cpu { IsCpu layout.now cpu.number }
    requires zone { IsZone layout.now zone.number }
    requires kept { (facts : Facts) × (h : History) × (facts.layout ≡ layout.now) × IsLegal facts h
        × K.Keeps peaks.now facts h }
    ensures told { (facts : Facts) (h : History) → facts.layout ≡ layout.now → IsLegal facts h →
        K.Keeps peaks.now facts h →
        result ≡ peak_told (cpu_in facts cpu.number h) (peak facts cpu.number zone.number h) }
    ensures most { IfSome result (λ n. n ≤ most_threshold) }
{
    vms_core::laws_are_kept();
    peaks.peak(layout, cpu, zone)
}

/// What one CPU may hide then.
fn part(is_online: bool, threshold: u32, told: Option<u64>) -> u64
    requires { IfSome told (λ n. n ≤ most_threshold) }
    ensures value { result ≡ hidden_part is_online threshold told }
    ensures most { result ≤ 2 ^ 32 }
{
    match told {
        Some(peak) => raised(is_online, threshold, peak),
        None => 0,
    }
}

fn raised(is_online: bool, threshold: u32, peak: u64) -> u64
    requires { peak ≤ most_threshold }
    ensures value { result ≡ raised_if is_online threshold peak }
    ensures most { result ≤ 2 ^ 32 }
{
    if is_online {
        u64::from(threshold).max(peak)
    } else {
        peak
    }
}

/// The mark of a zone that covers what CPUs may hide: Linux's mark of the usual threshold, raised where that is needed.
pub(crate) fn covering_mark(size: &ZoneSize, online: u32, usual: u32, hidden: u64) -> u64
    requires size { IsValidSize size.now }
    requires most_online { online ≤ 128 }
    requires hidden { hidden ≤ 2 ^ 62 }
    ensures { result ≡ cover_mark_of size.now (linux_mark_of size.now online usual) hidden }
{
    cover_mark(size, linux(size, online, usual), hidden)
}

/// Linux's mark, which is none where no CPU is online.
fn linux(size: &ZoneSize, online: u32, usual: u32) -> u64
    requires size { IsValidSize size.now }
    requires most_online { online ≤ 128 }
    ensures value { result ≡ linux_mark_of size.now online usual }
    ensures most { result ≤ 2 ^ 62 }
{
    if online == 0 {
        return 0;
    }
    linux_mark(size, online, usual)
}
