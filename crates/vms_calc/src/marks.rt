ghost use Rattle.std.specs.Prelude.{◌≡◌, ◌*◌, ◌+◌, ◌<◌, ◌≤◌, ◌^◌, max};
ghost use Rattle.vms_base.specs.Common.{Covers, linux_mark_of, cover_mark_of, IsValidSize};

use vms_base::ZoneSize;

/// The mark of `refresh_zone_stat_thresholds` of mm/vmstat.c, in pages: where the online CPUs together may hide more
/// than the pages between `min` and `low`, what they may hide above `high`, and otherwise 0, no mark.
///
/// Where this is 0 Linux leaves the mark that stood before. It multiplies in 32 bits, which makes no difference for
/// thresholds up to 125.
#[inline]
pub fn linux_mark(size: &ZoneSize, online: u32, threshold: u32) -> u64
    requires size { IsValidSize size.now }
    requires least_online { 1 ≤ online }
    requires most_online { online ≤ 128 }
    ensures value { result ≡ linux_mark_of size.now online threshold }
    ensures covers { Covers size.now result (online * threshold) }
    ensures most { result < 2 ^ 43 }
{
    let drift = u64::from(online) * u64::from(threshold);
    if drift <= size.low - size.min {
        0
    } else {
        size.high + drift
    }
}

/// A drift mark that covers what the CPUs may hide, in pages: Linux's mark, raised where it is less than what they may
/// hide above `high`. 0 is no mark, and stands only where they hide no more than the pages between `min` and `low`.
///
/// This is no function of the kernel, whose marks rest on the thresholds that are set and not on what CPUs still use.
#[inline]
pub fn cover_mark(size: &ZoneSize, linux: u64, hidden: u64) -> u64
    requires size { IsValidSize size.now }
    requires linux { linux ≤ 2 ^ 62 }
    requires hidden { hidden ≤ 2 ^ 62 }
    ensures value { result ≡ cover_mark_of size.now linux hidden }
    ensures covers { Covers size.now result hidden }
    ensures least { linux ≤ result }
    ensures most { result ≤ max linux (size.now.high + hidden) }
{
    if linux == 0 && hidden <= size.low - size.min {
        0
    } else {
        linux.max(size.high + hidden)
    }
}
