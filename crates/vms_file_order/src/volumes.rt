ghost use Rattle.std.specs.Prelude.{List, map};
ghost use Rattle.vms_world.specs.Common.{Header, Fits, Start, start_at_end, line_of, Item, Lane, FitVolumes};
ghost use Rattle.vms_world.specs.Common.{AreComplete, TableHistories, SpendTheirLines, StayWithinVolumes, left_by};
ghost use Rattle.vms_world.specs.Common.{IsWorldOf};
ghost use Rattle.vms_script.specs.Starts.{IsWithin};
ghost use Rattle.vms_world.specs.declared.worlds.World.{World};
ghost use Rattle.vms_file_order.specs.LanePasses.{StandOnce};
ghost use Rattle.vms_file_order.specs.MadePhases.{MakeInAnyOrder};
ghost use Rattle.vms_file_order.specs.OpenPhases.{IsOpenPhase, TableStates};
ghost use Rattle.vms_file_order.specs.PhaseVolumes.{CoversVolumes};

use vms_calls::ThresholdRules;

/// What a CPU spends in a phase is the sum of the sizes of its lines, whatever others do between them. Of a percpu
/// counter it is at most that. The same holds of the lines that have come in a phase that is still open.
pub fn phases_spend_their_lines<R: ThresholdRules>()
    ensures ended { (header : Header) (w : World) (items : List Item) (hs : TableHistories) →
        MakeInAnyOrder header R.pressure R.normal w items hs → SpendTheirLines header items hs }
    ensures so_far { (header : Header) (w : World) (lanes : List Lane) (items : List Item)
        (hs : TableHistories)
        (now : TableStates) → StandOnce lanes → IsOpenPhase header R.pressure R.normal w lanes items hs now →
        SpendTheirLines header items hs }
{}

/// Lines that fit a start fit the volumes of a world, if the start covers these, and so no CPU passes its volumes in a
/// phase of them. What the start is after the lines covers the volumes of the world after the phase.
pub fn fitting_lines_stay_within_volumes()
    ensures fit { (header : Header) (w : World) (items : List Item) (start : Start) →
        CoversVolumes header start w → Fits header start items → IsWithin start → FitVolumes header w items }
    ensures within { (header : Header) (w : World) (items : List Item) (hs : TableHistories)
        (start : Start) →
        SpendTheirLines header items hs → CoversVolumes header start w → Fits header start items →
        IsWithin start → StayWithinVolumes header w hs }
    ensures covers { (header : Header) (w : World) (items : List Item) (hs : TableHistories)
        (start : Start) →
        CoversVolumes header start w → IsWorldOf header w → AreComplete header w hs →
        CoversVolumes header (start_at_end start (map line_of items)) (left_by header w items hs) }
{}
