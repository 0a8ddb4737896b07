ghost use Rattle.std.specs.Prelude.{List, All};
ghost use Rattle.vms_world.specs.Common.{Header, HasWon, Item, FitVolumes, IsWorldPhase, AreComplete, TableHistories};
ghost use Rattle.vms_world.specs.Common.{LeavesNothing, left_by};
ghost use Rattle.vms_world.specs.declared.worlds.World.{World};
ghost use Rattle.vms_file_order.specs.MadePhases.{MakeInAnyOrder};
ghost use Rattle.vms_file_order.specs.FileOrderPhases.{IsFileOrderPhase, KeepAllLaws};
ghost use Rattle.vms_file_order.specs.Tables.{FindsLockFree};

use crate::phases_spend_their_lines;
use vms_calls::ThresholdRules;

/// Histories that make the lines of a phase are one, as long as the lines fit the volumes and whoever is absent in the
/// end has nothing left in the tables of events and of percpu counters.
pub fn made_phases_are_phases<R: ThresholdRules>()
    ensures { (header : Header) (w : World) (items : List Item) (hs : TableHistories) →
        MakeInAnyOrder header R.pressure R.normal w items hs → FitVolumes header w items →
        LeavesNothing header (left_by header w items hs) →
        IsWorldPhase header R.pressure R.normal w items hs (left_by header w items hs) }
{
    phases_spend_their_lines::<R>();
}

/// A phase in file order makes its lines, and so it is a phase of them under the same conditions.
pub fn file_order_makes_phases<R: ThresholdRules>()
    ensures makes { (header : Header) (w : World) (items : List Item) (hs : TableHistories) →
        IsFileOrderPhase header R.pressure R.normal w items hs →
        MakeInAnyOrder header R.pressure R.normal w items hs }
    ensures phase { (header : Header) (w : World) (items : List Item) (hs : TableHistories) →
        IsFileOrderPhase header R.pressure R.normal w items hs → FitVolumes header w items →
        LeavesNothing header (left_by header w items hs) →
        IsWorldPhase header R.pressure R.normal w items hs (left_by header w items hs) }
{
    phases_spend_their_lines::<R>();
}

/// In a phase in file order no exchange loses, and no lock is found held.
pub fn file_order_meets_nobody<R: ThresholdRules>()
    ensures pages { (header : Header) (w : World) (items : List Item) (hs : TableHistories) →
        IsFileOrderPhase header R.pressure R.normal w items hs → All (λ e. HasWon e.step) hs.pages }
    ensures counters { (header : Header) (w : World) (items : List Item) (hs : TableHistories) →
        IsFileOrderPhase header R.pressure R.normal w items hs → All (λ e. FindsLockFree e.step) hs.counters }
{}

/// At each moment of a phase all laws of the three tables hold.
pub fn phases_keep_all_laws()
    ensures { (header : Header) (w : World) (hs : TableHistories) → AreComplete header w hs →
        KeepAllLaws header w hs }
{
    vms_core::laws_are_kept();
    vms_event_core::laws_are_kept();
    vms_pcpu_core::laws_are_kept();
}
