ghost use Rattle.std.specs.Prelude.{◌≡◌, List, All, map};
ghost use Rattle.std.specs.List.Sorted.{IsStrictlyIncreasing};
ghost use Rattle.vms_answers.specs.Common.{NumberedAnswer, answers_of, merged};
ghost use Rattle.vms_world.specs.Common.{Header, IsLaneOf, Item, Lane, TableHistories};
ghost use Rattle.vms_file_order.specs.Common.{MakeInAnyOrder};
ghost use Rattle.vms_phase.specs.LanesMade.{AreMadeByLanes};
ghost use Rattle.vms_world.specs.declared.worlds.World.{World};

use crate::rules::Least;
use vms_calc::{Rule, Rules};
use vms_file_order::{EventLines, PageLines, PcpuLines};

/// What `lanes_make_phases` says, for thresholds by the rules that a run was given.
pub fn lanes_make_phases_by<N: Rule, P: Rule>(rules: &Rules<N, P>)
    ensures makes { (header : Header) (w : World) (items : List Item) (hs : TableHistories)
        (told : Lane → List NumberedAnswer) → AreMadeByLanes header (P.answers rules.now.pressure)
        (N.answers rules.now.normal) w items hs told →
        MakeInAnyOrder header (P.answers rules.now.pressure)
        (N.answers rules.now.normal) w items hs }
    ensures answers { (header : Header) (w : World) (items : List Item) (hs : TableHistories)
        (told : Lane → List NumberedAnswer) → AreMadeByLanes header (P.answers rules.now.pressure)
        (N.answers rules.now.normal) w items hs told → IsStrictlyIncreasing (map (λ item. item.number) items) →
        All (λ item. IsLaneOf header item.lane) items → answers_of header w items hs ≡ merged items told }
{
    let _ = rules;
    vms_answers::lanes_answer_their_lines();
    vms_file_order::lanes_stand_once();
    crate::whole_lanes::<PageLines<Least>>();
    crate::whole_lanes::<EventLines>();
    crate::whole_lanes::<PcpuLines>();
}
