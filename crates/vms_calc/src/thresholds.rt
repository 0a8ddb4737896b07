ghost use Rattle.std.specs.Prelude.{◌≡◌, ◌*◌, ◌≤◌};
ghost use Rattle.vms_base.specs.Common.{IsValidSize, gap_of, most_threshold, normal_threshold_of};
ghost use Rattle.vms_base.specs.Common.{pressure_threshold_of};

use vms_base::{ZoneSize, fls};

/// The largest threshold, in pages, so that a differential fits a signed byte.
pub const MAX_THRESHOLD: u32 = 125;

/// `calculate_normal_threshold` of mm/vmstat.c: the threshold of a zone, in pages, with so many CPUs online. It grows
/// with the digits of their number and of the number of the zone's blocks of 128 MiB.
#[inline]
pub fn normal_threshold(size: &ZoneSize, online: u32) -> u32
    requires size { IsValidSize size.now }
    requires least_online { 1 ≤ online }
    requires most_online { online ≤ 128 }
    ensures value { result ≡ normal_threshold_of size.now online }
    ensures least { 1 ≤ result }
    ensures most { result ≤ most_threshold }
{
    let cpu_digits = fls(u64::from(online));
    let block_digits = fls(size.managed / 32768);
    (2 * cpu_digits * (1 + block_digits)).min(MAX_THRESHOLD)
}

/// `calculate_pressure_threshold` of mm/vmstat.c: the threshold of a zone, in pages, with so many CPUs online, while
/// memory is short. Together the CPUs then hide no more than the pages between `min` and `low`, unless these are fewer
/// than the CPUs.
///
/// Linux holds these pages in an `int`, so from 2^31 on its threshold may differ.
#[inline]
pub fn pressure_threshold(size: &ZoneSize, online: u32) -> u32
    requires size { IsValidSize size.now }
    requires least_online { 1 ≤ online }
    requires most_online { online ≤ 128 }
    ensures value { result ≡ pressure_threshold_of size.now online }
    ensures least { 1 ≤ result }
    ensures most { result ≤ most_threshold }
    ensures hidden { online ≤ gap_of size.now → online * result ≤ gap_of size.now }
{
    let gap = size.low - size.min;
    (gap / u64::from(online)).clamp(1, u64::from(MAX_THRESHOLD)) as u32
}
