ghost use Rattle.std.specs.Prelude.{◌≡◌, List};
ghost use Rattle.vms_world.specs.Common.{Header, Item, TableHistories, left_by};
ghost use Rattle.vms_file_order.specs.Common.{IsFileOrderPhase};
ghost use Rattle.vms_file_order_laws.specs.Rules.{AnswersOnce};
ghost use Rattle.vms_world.specs.declared.worlds.World.{World};

use vms_calls::ThresholdRules;

/// Two phases of these lines in file order, from the same world, have the same events in each table, and so leave the
/// same world. On the page counters this asks that the rules of thresholds are functions where a phase asks them: of a
/// valid size and 1 to 128 online CPUs.
pub fn file_order_is_one<R: ThresholdRules>()
    ensures pages { (header : Header) (w : World) (items : List Item) (hs hs' : TableHistories) →
        AnswersOnce R.pressure → AnswersOnce R.normal →
        IsFileOrderPhase header R.pressure R.normal w items hs →
        IsFileOrderPhase header R.pressure R.normal w items hs' → hs.pages ≡ hs'.pages }
    ensures events { (header : Header) (w : World) (items : List Item) (hs hs' : TableHistories) →
        IsFileOrderPhase header R.pressure R.normal w items hs →
        IsFileOrderPhase header R.pressure R.normal w items hs' → hs.events ≡ hs'.events }
    ensures counters { (header : Header) (w : World) (items : List Item) (hs hs' : TableHistories) →
        IsFileOrderPhase header R.pressure R.normal w items hs →
        IsFileOrderPhase header R.pressure R.normal w items hs' → hs.counters ≡ hs'.counters }
    ensures histories { (header : Header) (w : World) (items : List Item) (hs hs' : TableHistories) →
        AnswersOnce R.pressure → AnswersOnce R.normal →
        IsFileOrderPhase header R.pressure R.normal w items hs →
        IsFileOrderPhase header R.pressure R.normal w items hs' → hs ≡ hs' }
    ensures world { (header : Header) (w : World) (items : List Item) (hs hs' : TableHistories) →
        AnswersOnce R.pressure → AnswersOnce R.normal →
        IsFileOrderPhase header R.pressure R.normal w items hs →
        IsFileOrderPhase header R.pressure R.normal w items hs' →
        left_by header w items hs ≡ left_by header w items hs' }
{}
