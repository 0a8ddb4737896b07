ghost use Rattle.std.specs.Prelude.{◌≡◌, ◌*◌, ◌/◌, ◌<◌, ◌≤◌, ◌^◌};
ghost use Rattle.vms_base.specs.Common.{IsValidSize, zone_marks_of};

use vms_base::ZoneSize;

/// `__setup_per_zone_wmarks` of mm/page_alloc.c: the size of a zone of `managed` pages, where all zones together have
/// `total`. `min` is the zone's share of `min_free_kbytes` KiB. `low` and `high` stand a step each above it: a quarter
/// of `min`, or `scale` ten-thousandths of the zone (`watermark_scale_factor`, 10 by default) where that is more.
///
/// Linux holds `min_free_kbytes` in an `int` and divides by a total cut to 32 bits, so from 2^32 pages on its marks
/// differ. It leaves zones of high memory out of the total.
pub fn zone_marks(min_free_kbytes: u64, scale: u32, managed: u64, total: u64) -> ZoneSize
    requires most_kbytes { min_free_kbytes ≤ 2 ^ 40 }
    requires least_scale { 1 ≤ scale }
    requires most_scale { scale ≤ 3000 }
    requires least_managed { 1 ≤ managed }
    requires most_managed { managed ≤ 2 ^ 40 }
    requires within { managed ≤ total }
    requires most_total { total ≤ 2 ^ 44 }
    ensures value { result ≡ zone_marks_of min_free_kbytes scale managed total }
    ensures valid { IsValidSize result }
    ensures below { result.high < 2 ^ 40 }
{
    let min = share(min_free_kbytes / 4, managed, total);
    let step = (min / 4).max(managed * u64::from(scale) / 10000);
    ZoneSize {
        managed,
        min,
        low: min + step,
        high: min + step + step,
    }
}

/// A zone's share of `pages` pages, by its part of the `total`.
fn share(pages: u64, managed: u64, total: u64) -> u64
    requires pages { pages ≤ 2 ^ 38 }
    requires managed { 1 ≤ managed }
    requires within { managed ≤ total }
    ensures value { result ≡ pages * managed / total }
    ensures most { result ≤ pages }
{
    (u128::from(pages) * u128::from(managed) / u128::from(total)) as u64
}
