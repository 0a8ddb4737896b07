ghost use Rattle.std.specs.Prelude.{◌≡◌, List, All, map};
ghost use Rattle.std.specs.List.Sorted.{IsStrictlyIncreasing};
ghost use Rattle.vms_answers.specs.Common.{NumberedAnswer, answers_of, merged};
ghost use Rattle.vms_world.specs.Common.{Header, IsLaneOf, Fits, Start, start_at_end, line_of, Item, Lane};
ghost use Rattle.vms_world.specs.Common.{IsWorldPhase, TableHistories, left_by};
ghost use Rattle.vms_file_order.specs.Common.{MakeInAnyOrder, IsStartOf};
ghost use Rattle.vms_phase.specs.LanesMade.{AreMadeByLanes, IsClosedWorld};
ghost use Rattle.vms_world.specs.declared.worlds.World.{World};

use vms_calls::ThresholdRules;
use vms_file_order::{EventLines, PageLines, PcpuLines};

/// Histories in which the passes of the lanes with lines made their lines are a phase of these lines. The lines answer
/// what the lanes were told, merged in the order of the lines.
pub fn lanes_make_phases<R: ThresholdRules>()
    ensures makes { (header : Header) (w : World) (items : List Item) (hs : TableHistories)
        (told : Lane → List NumberedAnswer) → AreMadeByLanes header R.pressure R.normal w items hs told →
        MakeInAnyOrder header R.pressure R.normal w items hs }
    ensures answers { (header : Header) (w : World) (items : List Item) (hs : TableHistories)
        (told : Lane → List NumberedAnswer) → AreMadeByLanes header R.pressure R.normal w items hs told →
        IsStrictlyIncreasing (map (λ item. item.number) items) →
        All (λ item. IsLaneOf header item.lane) items →
        answers_of header w items hs ≡ merged items told }
{
    vms_answers::lanes_answer_their_lines();
    vms_file_order::lanes_stand_once();
    crate::whole_lanes::<PageLines<R>>();
    crate::whole_lanes::<EventLines>();
    crate::whole_lanes::<PcpuLines>();
}

/// Where the lines fit a start of the world, what the lanes made is a phase that leads to the world in which its
/// histories were closed. That world belongs to the header again, and what the lines make of the start is a start of
/// it.
pub fn fitting_lanes_make_phases<R: ThresholdRules>()
    ensures left { (header : Header) (w : World) (items : List Item) (hs : TableHistories)
        (next : World) →
        IsClosedWorld header w items hs next → next ≡ left_by header w items hs }
    ensures phase { (header : Header) (w : World) (items : List Item) (hs : TableHistories)
        (told : Lane → List NumberedAnswer) (next : World) (start : Start) → IsStartOf header start w →
        Fits header start items → AreMadeByLanes header R.pressure R.normal w items hs told →
        IsClosedWorld header w items hs next →
        IsWorldPhase header R.pressure R.normal w items hs next }
    ensures start { (header : Header) (w : World) (items : List Item) (hs : TableHistories)
        (told : Lane → List NumberedAnswer) (next : World) (start : Start) → IsStartOf header start w →
        Fits header start items → AreMadeByLanes header R.pressure R.normal w items hs told →
        IsClosedWorld header w items hs next →
        IsStartOf header (start_at_end start (map line_of items)) next }
{
    lanes_make_phases::<R>();
    vms_file_order::fitting_phases_are_phases::<R>();
}
