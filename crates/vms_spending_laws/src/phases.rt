ghost use Rattle.std.specs.Prelude.{List, All};
ghost use Rattle.vms_answers.specs.Common.{answers_of};
ghost use Rattle.vms_file_order.specs.Common.{MakeInAnyOrder};
ghost use Rattle.vms_spending_laws.specs.Spending.{SpendAsAnswered, SpendInAll};
ghost use Rattle.vms_total_laws.specs.Common.{AreLinesOf, AreNumbered, answers_on, phases_among};
ghost use Rattle.vms_world.specs.Common.{Header, Item, Segment, SegmentsLead, TableHistories};
ghost use Rattle.vms_world.specs.declared.worlds.World.{World};

use vms_calls::ThresholdRules;
use vms_file_order::phases_spend_their_lines;

/// What a CPU spends in a phase is exactly what its lines say, whatever others do between their steps: on page and
/// event counters the sum of the sizes, and on a percpu counter the sizes of what the lines add, of a limited addition
/// where its answer is yes. The volumes of a world go by the text, and count it always.
pub fn phases_spend_as_answered<R: ThresholdRules>()
    ensures { (header : Header) (w : World) (items : List Item) (hs : TableHistories) →
        MakeInAnyOrder header R.pressure R.normal w items hs → AreLinesOf header items → AreNumbered items →
        SpendAsAnswered header items (answers_of header w items hs) hs }
{
    phases_spend_their_lines::<R>();
}

/// The same of all phases on a way through the segments of a text, and so of a run.
pub fn ways_spend_as_answered<R: ThresholdRules>()
    ensures { (header : Header) (segments : List Segment) (hss : List TableHistories) (w last : World) →
        All (AreLinesOf header) (phases_among segments) → All AreNumbered (phases_among segments) →
        (through : SegmentsLead header R.pressure R.normal segments hss w last) →
        SpendInAll header (phases_among segments)
        (answers_on header R.pressure R.normal segments hss w last through) hss }
{
    phases_spend_as_answered::<R>();
}
