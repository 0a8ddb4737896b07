ghost use Rattle.std.specs.Prelude.{◌≡◌, ℕ, List, [], Ok, map};
ghost use Rattle.vms_world.specs.Common.{Header, IsHeader, GivesThresholds, IsLineOf, Fits, allowed_from, counted_of};
ghost use Rattle.vms_world.specs.Common.{AreSegments, Segment, contents_of, lines_of_segments, Start, first_start};
ghost use Rattle.vms_world.specs.Common.{start_after, start_at_end, start_past, line_of, Item, Crosses, MayCross};
ghost use Rattle.vms_world.specs.Common.{started, IsWorldPhase, IsWorldRun, TableHistories, left_by, AreAnswers};
ghost use Rattle.vms_text.specs.declared.acts.Boundary.{Boundary as BoundaryOf};
ghost use Rattle.vms_text.specs.declared.acts.Line.TheVariants.{Boundary};
ghost use Rattle.vms_world.specs.declared.worlds.World.{World};
ghost use Rattle.vms_file_order.specs.Burials.{HasStates};
ghost use Rattle.vms_file_order.specs.MadePhases.{MakeInAnyOrder};
ghost use Rattle.vms_file_order.specs.WorldStarts.{IsStartOf};

use crate::{phases_bury_who_goes_absent, phases_spend_their_lines};
use vms_calls::ThresholdRules;

/// The first start is one of the world that a run begins with: every CPU is online, and none has changed anything.
pub fn runs_begin_with_first_start<R: ThresholdRules>()
    ensures { (header : Header) (zones : List ℕ) → IsHeader header → GivesThresholds R.normal →
        AreAnswers header R.normal header.layout.cpus zones →
        IsStartOf header first_start (started header zones) }
{}

/// Histories that make lines which fit a start of their world are a phase of them, and what the lines make of the start
/// is a start of the world that the phase leaves.
pub fn fitting_phases_are_phases<R: ThresholdRules>()
    ensures phase { (header : Header) (w : World) (items : List Item) (hs : TableHistories)
        (start : Start) →
        IsStartOf header start w → Fits header start items →
        MakeInAnyOrder header R.pressure R.normal w items hs →
        IsWorldPhase header R.pressure R.normal w items hs (left_by header w items hs) }
    ensures start { (header : Header) (w : World) (items : List Item) (hs : TableHistories)
        (start : Start) →
        IsStartOf header start w → Fits header start items →
        MakeInAnyOrder header R.pressure R.normal w items hs →
        IsStartOf header (start_at_end start (map line_of items)) (left_by header w items hs) }
{
    phases_spend_their_lines::<R>();
    phases_bury_who_goes_absent::<R>();
}

/// A boundary line that counts after a start of a world may be crossed there, and what it makes of the start is a start
/// of the world after it.
pub fn fitting_boundaries_cross<R: ThresholdRules>()
    ensures may { (header : Header) (w : World) (boundary : BoundaryOf) (start : Start) → HasStates header start w →
        IsLineOf header (Boundary boundary) →
        allowed_from header start (Boundary boundary) ≡ Ok (Boundary boundary) →
        MayCross header.layout w.pages boundary }
    ensures start { (header : Header) (w next : World) (boundary : BoundaryOf) (start : Start) →
        GivesThresholds R.normal → IsStartOf header start w → IsLineOf header (Boundary boundary) →
        allowed_from header start (Boundary boundary) ≡ Ok (Boundary boundary) →
        Crosses header R.normal boundary w next → IsStartOf header (start_past (Boundary boundary) start) next }
{}

/// What the lines of a run make of the first start is a start of the world that the run ends with, if its segments may
/// stand there, as those of a body do.
pub fn runs_keep_starts<R: ThresholdRules>()
    ensures segments { (header : Header) (segments : List Segment) (hss : List TableHistories)
        (last : World) →
        IsHeader header → GivesThresholds R.normal → AreSegments header first_start segments →
        IsWorldRun header R.pressure R.normal segments hss last →
        IsStartOf header (start_at_end first_start (lines_of_segments segments)) last }
    ensures body { (header : Header) (n : ℕ) (texts : List (List ℕ)) (hss : List TableHistories)
        (last : World) →
        IsHeader header → GivesThresholds R.normal →
        IsWorldRun header R.pressure R.normal (contents_of header n texts).segments hss last →
        IsStartOf header (start_after first_start (counted_of header [] texts)) last }
{}
