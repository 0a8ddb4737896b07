ghost use Rattle.std.specs.Prelude.{◌≡◌, ◌<◌, ◌≤◌, [], All, length, map, slice_index_or, IfOk};
ghost use Rattle.vms_phase_checks.specs.Slots.{AreEmpty, AreLaneActs, HasSlot};

use crate::slots::{owner_for, slot_for};
use std::alloc::Global;
use std::marker::Model;
use vms_base::Memory;
use vms_text::{Act, Item};

/// The acts of the lines of a phase by lane: those of the CPUs, and after them those of the control lane.
#[derive(Debug, Drop)]
pub struct LaneActs {
    lanes: Vec<Vec<Act>>,
}

impl Model for LaneActs {
    ghost use Rattle.std.specs.Prelude.{List, map};
    ghost use Rattle.vms_world.specs.Common.{Act};

    ghost Value = { List (List Act) };

    ghost view = { λ acts. map (λ lane. lane.items) acts.lanes.items };
}

impl LaneActs {
    /// The acts of these lines by lane.
    pub fn of(alloc: Global, cpus: u32, items: &[Item]) -> Result<LaneActs, Memory>
        requires cpus { cpus ≤ 128 }
        requires slots { All (λ item. HasSlot cpus item.lane) items.now }
        ensures { IfOk result (AreLaneActs cpus items.now) }
    {
        let mut lanes = no_acts(alloc, cpus as usize + 1)?;
        for item in items {
            let slot = slot_for(cpus, owner_for(item.lane.lane()));
            lanes[slot as usize].push(item.act)?;
        }
        Ok(LaneActs { lanes })
    }

    /// The acts of the lane whose pass stands in a slot.
    #[inline]
    pub fn at(&self, slot: u32) -> &[Act]
        requires { slot < length self.now }
        ensures { result.now ≡ slice_index_or self.now slot [] }
    {
        self.lanes[slot as usize].as_slice()
    }
}

/// So many lanes without acts.
fn no_acts(alloc: Global, count: usize) -> Result<Vec<Vec<Act>>, Memory>
    requires { count ≤ 129 }
    ensures { IfOk result (λ lanes. AreEmpty count (map (λ lane. lane.items) lanes.items)) }
{
    let mut lanes = Vec::with_capacity(alloc, count)?;
    for done in 0..count {
        lanes.push(Vec::new(alloc))?;
    }
    Ok(lanes)
}
