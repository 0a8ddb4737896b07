ghost use Rattle.std.specs.Prelude.{List, map};
ghost use Rattle.vms_file_order.specs.Common.{IsFileOrderPhase, MakeInAnyOrder};
ghost use Rattle.vms_own_acts.specs.Common.{IsExactly};
ghost use Rattle.vms_world.specs.Common.{Header, IsHeader, IsWorldRun, Item, Segment, TableHistories};
ghost use Rattle.vms_world.specs.Common.{normal_threshold_of, pressure_threshold_of};
ghost use Rattle.vms_world.specs.declared.worlds.World.{World};
ghost use Rattle.vms_written.specs.Common.{IsWrittenHistory, IsWrittenPhase};
ghost use Rattle.vms_written_rules.specs.Rules.{Allows};

use vms_calls::ThresholdRules;
use vms_line_walks::LineWalk;
use vms_own_acts::ExactRules;
use vms_phase_checks::LaneWalk;
use vms_written_rules::made_phases_are_written;

/// A program whose rules go by the kernel's formulas, where they are asked, makes what the checker certifies: the page
/// events of its phases are written phases, and those of its runs are written histories.
pub fn made_histories_are_certified<R: ThresholdRules>()
    ensures phases { (header : Header) (w : World) (items : List Item) (hs : TableHistories) →
        Allows (IsExactly pressure_threshold_of) R.pressure → Allows (IsExactly normal_threshold_of) R.normal →
        MakeInAnyOrder header R.pressure R.normal w items hs →
        IsWrittenPhase header ⟦<LineWalk as LaneWalk>⟧.pressure ⟦<LineWalk as LaneWalk>⟧.normal w.pages items hs.pages }
    ensures file_order { (header : Header) (w : World) (items : List Item) (hs : TableHistories) →
        Allows (IsExactly pressure_threshold_of) R.pressure → Allows (IsExactly normal_threshold_of) R.normal →
        IsFileOrderPhase header R.pressure R.normal w items hs →
        IsWrittenPhase header ⟦<LineWalk as LaneWalk>⟧.pressure ⟦<LineWalk as LaneWalk>⟧.normal w.pages items hs.pages }
    ensures runs { (header : Header) (segments : List Segment) (hss : List TableHistories) (last : World) →
        IsHeader header → Allows (IsExactly pressure_threshold_of) R.pressure →
        Allows (IsExactly normal_threshold_of) R.normal → IsWorldRun header R.pressure R.normal segments hss last →
        IsWrittenHistory header ⟦<LineWalk as LaneWalk>⟧.pressure ⟦<LineWalk as LaneWalk>⟧.normal segments
        (map (λ hs. hs.pages) hss) }
{
    made_phases_are_written::<R, ExactRules>();
}
