ghost use Rattle.std.specs.Prelude.{◌≤◌, ◌↔◌, All, IsTrue};

use crate::numbers::{FromNumbers, Numbers};
use anyhow::{Result, bail};
use std::alloc::Global;
use vms_base::{
    CounterId, CpuId, CpuState, EventId, GroupId, ItemId, Layout, PcpuId, PlaceId, ZoneKind,
    ZoneName,
};
use vms_history::Event;

impl FromNumbers for CpuId {
    fn from_numbers(numbers: &mut Numbers<'_>) -> Result<CpuId> {
        Ok(CpuId {
            number: numbers.read()?,
        })
    }
}

impl FromNumbers for EventId {
    fn from_numbers(numbers: &mut Numbers<'_>) -> Result<EventId> {
        Ok(EventId {
            number: numbers.read()?,
        })
    }
}

impl FromNumbers for PcpuId {
    fn from_numbers(numbers: &mut Numbers<'_>) -> Result<PcpuId> {
        Ok(PcpuId {
            number: numbers.read()?,
        })
    }
}

impl FromNumbers for PlaceId {
    fn from_numbers(numbers: &mut Numbers<'_>) -> Result<PlaceId> {
        Ok(PlaceId {
            number: numbers.read()?,
        })
    }
}

impl FromNumbers for CounterId {
    fn from_numbers(numbers: &mut Numbers<'_>) -> Result<CounterId> {
        Ok(CounterId {
            number: numbers.read()?,
        })
    }
}

impl FromNumbers for ItemId {
    fn from_numbers(numbers: &mut Numbers<'_>) -> Result<ItemId> {
        Ok(ItemId {
            number: numbers.read()?,
        })
    }
}

impl FromNumbers for GroupId {
    fn from_numbers(numbers: &mut Numbers<'_>) -> Result<GroupId> {
        Ok(GroupId {
            number: numbers.read()?,
        })
    }
}

/// Who owns a pass: a CPU, or none for -1.
impl FromNumbers for Option<CpuId> {
    fn from_numbers(numbers: &mut Numbers<'_>) -> Result<Option<CpuId>> {
        let Some(number) = numbers.read::<Option<u32>>()? else {
            return Ok(None);
        };
        Ok(Some(CpuId { number }))
    }
}

impl FromNumbers for CpuState {
    fn from_numbers(numbers: &mut Numbers<'_>) -> Result<CpuState> {
        match numbers.read::<u32>()? {
            0 => Ok(CpuState::Online),
            1 => Ok(CpuState::Dead),
            2 => Ok(CpuState::Absent),
            other => bail!("{other} is no state of a CPU"),
        }
    }
}

impl FromNumbers for ZoneKind {
    fn from_numbers(numbers: &mut Numbers<'_>) -> Result<ZoneKind> {
        match numbers.read::<u32>()? {
            0 => Ok(ZoneKind::Dma),
            1 => Ok(ZoneKind::Dma32),
            2 => Ok(ZoneKind::Normal),
            3 => Ok(ZoneKind::Movable),
            other => bail!("{other} is no kind of a zone"),
        }
    }
}

impl FromNumbers for ZoneName {
    fn from_numbers(numbers: &mut Numbers<'_>) -> Result<ZoneName> {
        Ok(ZoneName {
            node: numbers.read()?,
            kind: numbers.read()?,
        })
    }
}

impl<K: FromNumbers> FromNumbers for Event<K> {
    fn from_numbers(numbers: &mut Numbers<'_>) -> Result<Event<K>> {
        Ok(Event {
            caller: numbers.read()?,
            step: numbers.read()?,
        })
    }
}

/// The number of CPUs, that of the positions, and the zones.
pub(crate) fn read_layout(alloc: Global, numbers: &mut Numbers<'_>) -> Result<Layout> {
    let cpus = numbers.read::<u32>()?;
    let positions = numbers.read::<u32>()?;
    let zones = numbers.read_list::<ZoneName>(alloc)?;
    if !have_nodes(zones.as_slice()) {
        bail!("the number of a node is at most 15");
    }
    match positions {
        8 => Ok(Layout::make(zones.as_slice(), cpus)?),
        16 => Ok(Layout::make_wide(zones.as_slice(), cpus)?),
        _ => bail!("a place has 8 or 16 positions, and not {positions}"),
    }
}

fn have_nodes(zones: &[ZoneName]) -> bool
    ensures { IsTrue result ↔ All (λ zone. zone.node ≤ 15) zones.now }
{
    zones.iter().all(|zone| zone.node <= 15)
}
