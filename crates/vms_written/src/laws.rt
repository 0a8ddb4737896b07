ghost use Rattle.std.specs.Prelude.{List, ◌++◌, map};
ghost use Rattle.vms_core.specs.Pages.{History};
ghost use Rattle.vms_file_order.specs.Common.{MakeInAnyOrder};
ghost use Rattle.vms_world.specs.Common.{Header, IsWorldRun, Item, Segment, State, TableHistories};
ghost use Rattle.vms_world.specs.declared.worlds.World.{World};
ghost use Rattle.vms_written.specs.OpenPhases.{BeginsWrittenPhase};
ghost use Rattle.vms_written.specs.WrittenPhases.{IsWrittenPhase};
ghost use Rattle.vms_written.specs.WrittenRuns.{IsWrittenHistory};

use vms_calls::ThresholdRules;

/// The page events of each phase that was made of lines, in whatever order its lanes went, are a written phase of these
/// lines. So those of a run are a written history of its segments.
pub fn runs_are_written<R: ThresholdRules>()
    ensures phases { (header : Header) (w : World) (items : List Item) (hs : TableHistories) →
        MakeInAnyOrder header R.pressure R.normal w items hs →
        IsWrittenPhase header R.pressure R.normal w.pages items hs.pages }
    ensures runs { (header : Header) (segments : List Segment) (hss : List TableHistories) (last : World) →
        IsWorldRun header R.pressure R.normal segments hss last →
        IsWrittenHistory header R.pressure R.normal segments (map (λ hs. hs.pages) hss) }
{}

/// The first events of a written phase begin one: each pass that has begun goes along the acts of its lane. So where a
/// history doesn't begin a phase of these lines, no further events make it one.
pub fn written_phases_begin_so<R: ThresholdRules>()
    ensures { (header : Header) (s : State) (items : List Item) (more h : History) →
        IsWrittenPhase header R.pressure R.normal s items (more ++ h) →
        BeginsWrittenPhase header R.pressure R.normal s items h }
{}
