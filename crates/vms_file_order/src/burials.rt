ghost use Rattle.std.specs.Prelude.{List, All, map};
ghost use Rattle.vms_world.specs.Common.{Header, IsLineOf, Start, start_at_end, line_of, Item, TableHistories};
ghost use Rattle.vms_world.specs.Common.{LeavesNothing, left_by};
ghost use Rattle.vms_world.specs.declared.worlds.World.{World};
ghost use Rattle.vms_file_order.specs.Burials.{AbsentAreBuried, HasStates};
ghost use Rattle.vms_file_order.specs.MadePhases.{MakeInAnyOrder};

use vms_calls::ThresholdRules;

/// A burial folds a CPU in the tables of events and of percpu counters too. So whoever is absent after a phase has
/// nothing left in them, if it was absent before or a line of the phase buries it.
pub fn burials_leave_nothing<R: ThresholdRules>()
    ensures { (header : Header) (w : World) (items : List Item) (hs : TableHistories) →
        MakeInAnyOrder header R.pressure R.normal w items hs →
        AbsentAreBuried header w items (left_by header w items hs) → LeavesNothing header (left_by header w items hs) }
{
    vms_event_core::laws_are_kept();
    vms_event_core::folded_words_are_zero();
}

/// Of all calls a burial alone makes a CPU absent. So whoever is absent after a phase was absent before or is buried by
/// a line, and has nothing left in the tables of events and of percpu counters.
pub fn phases_bury_who_goes_absent<R: ThresholdRules>()
    ensures buried { (header : Header) (w : World) (items : List Item) (hs : TableHistories) →
        MakeInAnyOrder header R.pressure R.normal w items hs →
        AbsentAreBuried header w items (left_by header w items hs) }
    ensures nothing { (header : Header) (w : World) (items : List Item) (hs : TableHistories) →
        MakeInAnyOrder header R.pressure R.normal w items hs →
        LeavesNothing header (left_by header w items hs) }
{
    burials_leave_nothing::<R>();
}

/// Where a start says the states of the CPUs before a phase, and what the lines make of it those after it, whoever is
/// absent then was absent before or is buried by a line.
pub fn lines_bury_who_goes_absent()
    ensures { (header : Header) (start : Start) (w next : World) (items : List Item) →
        All (λ item. IsLineOf header (line_of item)) items → HasStates header start w →
        HasStates header (start_at_end start (map line_of items)) next →
        AbsentAreBuried header w items next }
{}
