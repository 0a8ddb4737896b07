ghost use Rattle.std.specs.Prelude.{List};
ghost use Rattle.vms_world.specs.Common.{Header, Item, Lane, TableHistories, StayWithinVolumes, IsWorldOf};
ghost use Rattle.vms_plain_lines.specs.PlainStates.{PlainStates, StandsInPhase};
ghost use Rattle.vms_plain_lines.specs.Rooms.{LeavesRoomForLanes};
ghost use Rattle.vms_world.specs.declared.worlds.World.{World};

use vms_calc::{Rule, Rules};

/// An open phase of a world of a header leaves room for the next line, as long as no CPU passes its volumes.
pub fn open_phases_leave_room<N: Rule, P: Rule>(rules: &Rules<N, P>)
    ensures { (header : Header) (w : World) (lanes : List Lane) (items : List Item)
        (hs : TableHistories)
        (now : PlainStates) → IsWorldOf header w →
        StandsInPhase header (P.answers rules.now.pressure) (N.answers rules.now.normal) w lanes
        items hs now →
        StayWithinVolumes header w hs → LeavesRoomForLanes header lanes now }
{
    vms_core::settled_ends_may_begin();
    vms_plain_events::histories_leave_room();
    vms_plain_pcpu::histories_leave_room();
    rules.tells();
}
