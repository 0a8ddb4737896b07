ghost use Rattle.std.specs.Prelude.{◌≡◌, true, List, [], ◌∷◌, ◌++◌, All};
ghost use Rattle.vms_world.specs.Common.{Header, MayOwnCpu, Item, Lane, is_among, lanes_of, owner_of, TableHistories};
ghost use Rattle.vms_world.specs.Common.{left_by, IsWorldOf};
ghost use Rattle.vms_world.specs.declared.worlds.World.{World};
ghost use Rattle.vms_file_order.specs.FileOrderPhases.{IsFileOrderPhase};
ghost use Rattle.vms_file_order.specs.LanePasses.{StandOnce};
ghost use Rattle.vms_file_order.specs.OpenPhases.{EndsIn, GoesOnInTables, IsOpenPhase, TableStates, closings_of};
ghost use Rattle.vms_file_order.specs.OpenPhases.{opening_states, openings_of, histories_with_line};

use vms_calls::ThresholdRules;

/// From a world of a header a phase opens, for lanes of which each stands once and those of CPUs are of online ones.
pub fn phases_open<R: ThresholdRules>()
    ensures { (header : Header) (w : World) (lanes : List Lane) → IsWorldOf header w → StandOnce lanes →
        All (λ lane. MayOwnCpu header.layout w.pages.cpu (owner_of lane)) lanes →
        IsOpenPhase header R.pressure R.normal w lanes [] (openings_of lanes) (opening_states header w) }
{}

/// An open phase goes on with a line that goes on in the three tables.
pub fn open_phases_go_on<R: ThresholdRules>()
    ensures { (header : Header) (w : World) (lanes : List Lane) (items : List Item)
        (hs : TableHistories)
        (now : TableStates) → IsOpenPhase header R.pressure R.normal w lanes items hs now →
        (item : Item) (next : TableStates) → is_among item.lane lanes ≡ true →
        (line : GoesOnInTables header R.pressure R.normal w lanes item hs next) →
        IsOpenPhase header R.pressure R.normal w lanes (items ++ item ∷ [])
        (histories_with_line header R.pressure R.normal w lanes item hs next line) next }
{}

/// An open phase of lines, in which the lanes with lines have their passes and no other, closes in file order, and
/// leaves its states.
pub fn open_phases_close<R: ThresholdRules>()
    ensures order { (header : Header) (w : World) (items : List Item) (hs : TableHistories)
        (now : TableStates) →
        IsOpenPhase header R.pressure R.normal w (lanes_of header.layout items) items hs now →
        IsFileOrderPhase header R.pressure R.normal w items (closings_of (lanes_of header.layout items) hs) }
    ensures left { (header : Header) (w : World) (items : List Item) (hs : TableHistories)
        (now : TableStates) →
        IsOpenPhase header R.pressure R.normal w (lanes_of header.layout items) items hs now →
        EndsIn (left_by header w items (closings_of (lanes_of header.layout items) hs)) now }
{}
