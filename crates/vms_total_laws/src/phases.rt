ghost use Rattle.std.specs.Prelude.{List};
ghost use Rattle.vms_answers.specs.Common.{answers_of};
ghost use Rattle.vms_world.specs.Common.{Header, Item, TableHistories, left_by, IsWorldOf};
ghost use Rattle.vms_file_order.specs.Common.{MakeInAnyOrder};
ghost use Rattle.vms_total_laws.specs.Moves.{CountersMoveBy, EventsMoveBy, PagesMoveBy};
ghost use Rattle.vms_total_laws.specs.PlainSums.{AreLinesOf, AreNumbered};
ghost use Rattle.vms_world.specs.declared.worlds.World.{World};

use vms_calls::ThresholdRules;

/// Histories that make the lines of a phase move the total of each counter by the plain sum of the lines, however the
/// steps of the lanes stand among one another: that of a page counter by the deltas, that of an event by the counts,
/// and that of a percpu counter by the amounts, of a limited addition where its answer is yes.
pub fn phases_add_their_lines<R: ThresholdRules>()
    ensures pages { (header : Header) (w : World) (items : List Item) (hs : TableHistories) →
        MakeInAnyOrder header R.pressure R.normal w items hs → AreLinesOf header items →
        PagesMoveBy header items w (left_by header w items hs) }
    ensures events { (header : Header) (w : World) (items : List Item) (hs : TableHistories) →
        MakeInAnyOrder header R.pressure R.normal w items hs → AreLinesOf header items →
        EventsMoveBy header items w (left_by header w items hs) }
    ensures counters { (header : Header) (w : World) (items : List Item) (hs : TableHistories) →
        IsWorldOf header w →
        MakeInAnyOrder header R.pressure R.normal w items hs → AreLinesOf header items →
        AreNumbered items →
        CountersMoveBy header (answers_of header w items hs) items w (left_by header w items hs) }
{
    vms_event_core::complete_histories_hold_totals();
}
