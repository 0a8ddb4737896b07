ghost use Rattle.std.specs.Prelude.{List, map};
ghost use Rattle.vms_core.specs.Pages.{History};
ghost use Rattle.vms_file_order.specs.Common.{IsFileOrderPhase, MakeInAnyOrder};
ghost use Rattle.vms_world.specs.Common.{Header, IsHeader, IsWorldRun, Item, Segment, State, TableHistories};
ghost use Rattle.vms_world.specs.declared.worlds.World.{World};
ghost use Rattle.vms_written.specs.Common.{IsWrittenHistory, IsWrittenPhase};
ghost use Rattle.vms_written_rules.specs.Rules.{Allows};

use vms_calls::ThresholdRules;
use vms_file_order::file_order_makes_phases;
use vms_written::runs_are_written;

/// What a written phase or history asks the rules of thresholds for is a valid size and 1 to 128 online CPUs. So what
/// is one by some rules is one by others that allow their answers there.
pub fn asked_answers_decide<R: ThresholdRules, S: ThresholdRules>()
    ensures phases { (header : Header) (s : State) (items : List Item) (h : History) →
        Allows S.pressure R.pressure → Allows S.normal R.normal →
        IsWrittenPhase header R.pressure R.normal s items h →
        IsWrittenPhase header S.pressure S.normal s items h }
    ensures histories { (header : Header) (segments : List Segment) (hs : List History) → IsHeader header →
        Allows S.pressure R.pressure → Allows S.normal R.normal →
        IsWrittenHistory header R.pressure R.normal segments hs →
        IsWrittenHistory header S.pressure S.normal segments hs }
{}

/// The page events of a phase that was made by some rules, in any order of its lanes or in file order, are a written
/// phase by others that allow their answers, and those of a run are a written history.
pub fn made_phases_are_written<R: ThresholdRules, S: ThresholdRules>()
    ensures any_order { (header : Header) (w : World) (items : List Item) (hs : TableHistories) →
        Allows S.pressure R.pressure → Allows S.normal R.normal →
        MakeInAnyOrder header R.pressure R.normal w items hs →
        IsWrittenPhase header S.pressure S.normal w.pages items hs.pages }
    ensures file_order { (header : Header) (w : World) (items : List Item) (hs : TableHistories) →
        Allows S.pressure R.pressure → Allows S.normal R.normal →
        IsFileOrderPhase header R.pressure R.normal w items hs →
        IsWrittenPhase header S.pressure S.normal w.pages items hs.pages }
    ensures runs { (header : Header) (segments : List Segment) (hss : List TableHistories) (last : World) →
        IsHeader header → Allows S.pressure R.pressure → Allows S.normal R.normal →
        IsWorldRun header R.pressure R.normal segments hss last →
        IsWrittenHistory header S.pressure S.normal segments (map (λ hs. hs.pages) hss) }
{
    runs_are_written::<R>();
    file_order_makes_phases::<R>();
    asked_answers_decide::<R, S>();
}
