ghost use Rattle.std.specs.Prelude.{◌≡◌, suc, [], All, IfOk, length};
ghost use Rattle.vms_world.specs.Common.{IsLaneOf, Lane as LaneOf};
ghost use Rattle.vms_answers.specs.Common.{told_by};
ghost use Rattle.vms_phase.specs.JoinedLanes.{told_of};

use crate::lane_joins::JoinedLane;
use std::alloc::Global;
use vms_answers::{LaneAnswers, place_of};
use vms_base::{Header, Memory};

/// Puts what the lines of each lane answered into the lane's place. A lane that has no lines answered nothing.
pub fn place_answers(
    alloc: Global,
    header: &Header,
    lanes: Vec<JoinedLane>,
) -> Result<Vec<LaneAnswers>, Memory>
    requires known { All (λ one. IsLaneOf header.now one.lane) lanes.items }
    ensures one_each { IfOk result (λ placed. length placed.items ≡ suc header.now.layout.cpus) }
    ensures told { IfOk result (λ placed. (lane : LaneOf) → told_by placed.items lane ≡ told_of lanes.items lane) }
{
    let mut placed = no_answers(alloc, header.layout.cpus() as usize + 1)?;
    let mut rest = lanes;
    while let Some(lane) = rest.pop() {
        placed[place_of(lane.lane)] = LaneAnswers {
            items: lane.answers,
        };
    }
    Ok(placed)
}

/// So many places for answers, of which none has any.
fn no_answers(alloc: Global, count: usize) -> Result<Vec<LaneAnswers>, Memory>
    ensures one_each { IfOk result (λ placed. length placed.items ≡ count) }
    ensures none { IfOk result (λ placed. (lane : LaneOf) → told_by placed.items lane ≡ []) }
{
    let mut placed = Vec::with_capacity(alloc, count)?;
    for _ in 0..count {
        placed.push(LaneAnswers {
            items: Vec::new(alloc),
        })?;
    }
    Ok(placed)
}
