ghost use Rattle.std.specs.Prelude.{◌≡◌, ◌<◌, ◌≤◌, ◌^◌, ◌==◌, ◌&&◌, nat_lt, nat_le, if◌then◌else◌, All, IfSome};
ghost use Rattle.vms_base.specs.Common.{IsZone, zone_at, zone_index, IsValidSize, reserve_of, reserve_ratio};
ghost use Rattle.vms_base.specs.Common.{managed_between};

use vms_base::{Header, Layout, PlaceId, ZoneKind, ZoneName, ZoneSize};

/// `setup_per_zone_lowmem_reserve` of mm/page_alloc.c: the pages that a zone keeps back from a request which might use
/// the zones of its node up to the zone index `highest`. They are a part of the managed pages of those zones above it,
/// by the default ratios of `sysctl_lowmem_reserve_ratio`; Movable keeps nothing back.
pub fn reserve(header: &Header, zone: PlaceId, highest: u32) -> u64
    requires sizes { All IsValidSize header.now.sizes }
    requires zone { IsZone header.now.layout zone.number }
    requires highest { highest ≤ 3 }
    ensures value { result ≡ reserve_of header.now.layout header.now.sizes zone.number highest }
    ensures lower { IfSome (zone_at header.now.layout zone.number)
        (λ name. highest ≤ zone_index name.kind → result ≡ 0) }
    ensures most { result ≤ 2 ^ 39 }
{
    let name = header.layout.zones()[zone.number as usize];
    let ratio = ratio_of(name.kind);
    if ratio == 0 {
        return 0;
    }
    pages_between(&header.layout, header.sizes.as_slice(), name, highest) / ratio
}

/// `sysctl_lowmem_reserve_ratio` by kind, where 0 is no reserve.
fn ratio_of(kind: ZoneKind) -> u64
    ensures { result ≡ reserve_ratio kind }
{
    match kind {
        ZoneKind::Dma | ZoneKind::Dma32 => 256,
        ZoneKind::Normal => 32,
        ZoneKind::Movable => 0,
    }
}

/// The managed pages of the zones of one node above a zone and up to a zone index.
fn pages_between(layout: &Layout, sizes: &[ZoneSize], above: ZoneName, highest: u32) -> u64
    requires { All IsValidSize sizes.now }
    ensures value { result ≡ managed_between layout.now sizes.now above.node (zone_index above.kind) highest }
    ensures none { highest ≤ zone_index above.kind → result ≡ 0 }
    ensures most { result ≤ 2 ^ 44 }
{
    let zones = layout.zones();
    let mut pages = 0;
    for index in 0..zones.len().min(sizes.len()) {
        pages += pages_above(zones[index], &sizes[index], above, highest);
    }
    pages
}

/// The managed pages of a zone if it stands above another of its node and up to a zone index, and otherwise 0.
fn pages_above(zone: ZoneName, size: &ZoneSize, above: ZoneName, highest: u32) -> u64
    ensures value { result ≡ (if (zone.node == above.node) && nat_lt (zone_index above.kind) (zone_index zone.kind)
        && nat_le (zone_index zone.kind) highest then size.now.managed else 0) }
    ensures none { highest ≤ zone_index above.kind → result ≡ 0 }
    ensures most { result ≤ size.now.managed }
{
    if zone.node == above.node && above.kind < zone.kind && zone.kind as u32 <= highest {
        size.managed
    } else {
        0
    }
}
