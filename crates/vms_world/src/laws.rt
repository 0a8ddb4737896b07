ghost use Rattle.std.specs.Prelude.{◌≡◌, ℕ, ◌+ℤ◌, List};
ghost use Rattle.vms_calls.specs.Common.{Header, IsHeader, IsCounter, GivesThresholds, value_at, differentials};
ghost use Rattle.vms_text.specs.declared.acts.Boundary.{Boundary};
ghost use Rattle.vms_text.specs.declared.acts.Item.{Item};
ghost use Rattle.vms_world.specs.declared.worlds.World.{World};
ghost use Rattle.vms_world.specs.Boundaries.{Crosses, MayCross};
ghost use Rattle.vms_script.specs.Common.{Segment};
ghost use Rattle.vms_world.specs.PhaseLines.{IsWorldRun};
ghost use Rattle.vms_world.specs.LineVolumes.{FitVolumes};
ghost use Rattle.vms_world.specs.Phases.{AreComplete, TableHistories, LeavesNothing, SpendTheirLines};
ghost use Rattle.vms_world.specs.Phases.{StayWithinVolumes, left_by};
ghost use Rattle.vms_world.specs.Refreshes.{AreAnswers};
ghost use Rattle.vms_world.specs.FirstWorlds.{started};
ghost use Rattle.vms_world.specs.Worlds.{IsWorldOf};

use vms_calls::ThresholdRules;

/// A world that belongs to a header stays one that does across every boundary, whichever rule of thresholds it goes by.
pub fn boundaries_keep_worlds<R: ThresholdRules>()
    ensures { (header : Header) (boundary : Boundary) (w next : World) → GivesThresholds R.normal
        → IsWorldOf header w → MayCross header.layout w.pages boundary
        → Crosses header R.normal boundary w next → IsWorldOf header next }
{}

/// A run begins with a world of its header, whichever rule gives the zones their thresholds.
pub fn starts_make_worlds<R: ThresholdRules>()
    ensures { (header : Header) (zones : List ℕ) → IsHeader header → GivesThresholds R.normal
        → AreAnswers header R.normal header.layout.cpus zones → IsWorldOf header (started header zones) }
{}

/// Across a boundary nothing is lost: what each page counter adds up to, its global value and its differentials, stays.
pub fn boundaries_keep_totals<R: ThresholdRules>()
    ensures { (header : Header) (boundary : Boundary) (w next : World) → IsWorldOf header w
        → Crosses header R.normal boundary w next → (k : ℕ) → IsCounter header.layout k
        → value_at next.pages k +ℤ differentials header.layout next.pages k
        ≡ value_at w.pages k +ℤ differentials header.layout w.pages k }
{}

/// A phase leads from a world of a header to one of it: complete histories of the three tables that spend what lines
/// say do, if the lines fit the volumes and whoever is absent in the end has nothing left in the tables of events and
/// of percpu counters. No CPU passes its volumes then.
pub fn phases_keep_worlds()
    ensures world { (header : Header) (w : World) (items : List Item) (hs : TableHistories) →
        IsWorldOf header w →
        AreComplete header w hs → SpendTheirLines header items hs → FitVolumes header w items →
        LeavesNothing header (left_by header w items hs) → IsWorldOf header (left_by header w items hs) }
    ensures within { (header : Header) (w : World) (items : List Item) (hs : TableHistories) →
        SpendTheirLines header items hs → FitVolumes header w items → StayWithinVolumes header w hs }
{}

/// A run leads to a world of its header: whatever leads from its start through the segments of a text, phases of lines
/// and boundary lines, whichever rules it goes by.
pub fn runs_keep_worlds<R: ThresholdRules>()
    ensures { (header : Header) (segments : List Segment) (hss : List TableHistories)
        (last : World) → IsHeader header
        → GivesThresholds R.normal → IsWorldRun header R.pressure R.normal segments hss last → IsWorldOf header last }
{}
