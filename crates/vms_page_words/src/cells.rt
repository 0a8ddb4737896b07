//! Where the number of a CPU for a place, a zone or a counter stands in a list that has such numbers by CPU.

ghost use Rattle.std.specs.Prelude.{◌≡◌, ◌+◌, ◌*◌, ◌<◌, ◌≤◌, ◌^◌, length};
ghost use Rattle.vms_history.specs.Common.{IsCounter, IsCpu, IsGroup, IsLayout, IsPlace, IsZone, counter_count};
ghost use Rattle.vms_history.specs.Common.{place_count};
ghost use Rattle.vms_base.specs.Places as places;

use vms_base::{CounterId, CpuId, GroupId, Layout, PlaceId};

#[inline]
pub(crate) fn place_cell(layout: &Layout, cpu: CpuId, place: PlaceId) -> usize
    requires cpu { IsCpu layout.now cpu.number }
    requires place { IsPlace layout.now place.number }
    ensures value { result ≡ places.cell (place_count layout.now) cpu.number place.number }
    ensures within { result < layout.now.cpus * place_count layout.now }
    ensures is_layout { IsLayout layout.now }
{
    cpu.number as usize * layout.places() as usize + place.number as usize
}

#[inline]
pub(crate) fn zone_cell(layout: &Layout, cpu: CpuId, zone: PlaceId) -> usize
    requires cpu { IsCpu layout.now cpu.number }
    requires zone { IsZone layout.now zone.number }
    ensures value { result ≡ places.cell (length layout.now.zones) cpu.number zone.number }
    ensures within { result < layout.now.cpus * length layout.now.zones }
{
    cpu.number as usize * layout.zones().len() + zone.number as usize
}

#[inline]
pub(crate) fn counter_cell(layout: &Layout, cpu: CpuId, counter: CounterId) -> usize
    requires cpu { IsCpu layout.now cpu.number }
    requires counter { IsCounter layout.now counter.number }
    ensures value { result ≡ places.cell (counter_count layout.now) cpu.number counter.number }
    ensures within { result < layout.now.cpus * counter_count layout.now }
{
    cpu.number as usize * layout.counters() as usize + counter.number as usize
}

/// Where the first of the eight of a group stands.
#[inline]
pub(crate) fn group_cell(layout: &Layout, cpu: CpuId, group: GroupId) -> usize
    requires cpu { IsCpu layout.now cpu.number }
    requires group { IsGroup layout.now group.number }
    ensures value { result ≡ places.cell (counter_count layout.now) cpu.number (8 * group.number) }
    ensures within { result + 8 ≤ layout.now.cpus * counter_count layout.now }
    ensures small { result < 2 ^ 32 }
{
    cpu.number as usize * layout.counters() as usize + 8 * group.number as usize
}
