ghost use Rattle.std.specs.Prelude.{◌≡◌, ◌+◌, ◌≤◌, ◌^◌, ◌&&◌, All, length, nat_eq, nat_le};
ghost use Rattle.vms_base.specs.Common.{IsZone, zone_index, IsValidSize, watermark_of, limit_of};

use crate::reserves::reserve;
use vms_base::{Header, PlaceId, WaterMark, ZoneName, ZoneSize};

/// What the free pages of a zone have to exceed, in pages: the watermark and the zone's reserve.
pub fn limit(header: &Header, zone: PlaceId, mark: WaterMark, most: u32) -> u64
    requires one_each { length header.now.sizes ≡ length header.now.layout.zones }
    requires sizes { All IsValidSize header.now.sizes }
    requires zone { IsZone header.now.layout zone.number }
    requires most { most ≤ 3 }
    ensures value { result ≡ limit_of header.now zone.number mark most }
    ensures bound { result ≤ 2 ^ 43 }
{
    let size = header.sizes.get(zone.number as usize);
    watermark(&size, mark) + reserve(header, zone, most)
}

/// A watermark of a zone of this size, in pages.
fn watermark(size: &ZoneSize, mark: WaterMark) -> u64
    requires { IsValidSize size.now }
    ensures value { result ≡ watermark_of size.now mark }
    ensures bound { result ≤ 2 ^ 42 }
{
    match mark {
        WaterMark::Min => size.min,
        WaterMark::Low => size.low,
        WaterMark::High => size.high,
    }
}

/// Whether a zone is one of a node, up to a zone index.
pub fn is_up_to(zone: ZoneName, node: u32, most: u32) -> bool
    ensures { result ≡ (nat_eq zone.node node && nat_le (zone_index zone.kind) most) }
{
    zone.node == node && zone.kind as u32 <= most
}
