ghost use Rattle.std.specs.Prelude.{◌≡◌, ◌≢◌, ℕ, true, List, [], ◌∷◌, ◌++◌};
ghost use Rattle.vms_world.specs.Common.{Shape, Event, after, own, Item, Lane, HasLanes, MakesLines, is_among};
ghost use Rattle.vms_world.specs.Common.{lanes_of};
ghost use Rattle.vms_history.specs.Legal.{IsComplete, state_after};
ghost use Rattle.vms_file_order.specs.FileOrder.{Follow, GoesOnWithLine, HasPass, IsFileOrder, StandsOpen};
ghost use Rattle.vms_file_order.specs.LanePasses.{MayOwnEach, StandOnce, closing_of, opening_of, pass_of};

use crate::LineTable;

/// The opening of a phase: where the table lets passes own what these lanes' own, and each lane stands once, their
/// passes begin, and the state stays. Each lane has its pass from then on, and no pass has made a step yet.
pub fn openings_stand<T: LineTable>()
    ensures stands { (facts : T.Facts) (lanes : List Lane) → T.machine.CanBegin facts →
        MayOwnEach T.machine facts lanes → StandOnce lanes →
        StandsOpen T.machine T.passes facts lanes (opening_of T.passes lanes) (T.machine.base facts) }
    ensures pass { (lanes : List Lane) (h : List (Event T.Step)) (lane : Lane) →
        own h 0 ≡ opening_of T.passes lanes → is_among lane lanes ≡ true → HasPass T.machine.role lanes h lane }
    ensures others { (lanes : List Lane) (q : ℕ) → q ≢ 0 → own (opening_of T.passes lanes) q ≡ [] }
{}

/// One line more: where it goes on from a history that stands, the history stands with its steps too, and where the
/// lines follow one another, so do they with this line. One that makes no step goes on to the state that stands.
pub fn lines_stand<T: LineTable>()
    ensures stands { (setting : T.Setting) (facts : T.Facts) (lanes : List Lane) (item : Item)
        (h : List (Event T.Step)) (next : T.State) → is_among item.lane lanes ≡ true →
        (goes : GoesOnWithLine T.machine (T.makes setting) T.IsAlone facts lanes item h next) →
        (now : T.State) → StandsOpen T.machine T.passes facts lanes h now →
        StandsOpen T.machine T.passes facts lanes (after (pass_of lanes item.lane) goes.steps h) next }
    ensures follow { (setting : T.Setting) (facts : T.Facts) (lanes : List Lane) (item : Item)
        (h : List (Event T.Step)) (next : T.State) → is_among item.lane lanes ≡ true →
        (goes : GoesOnWithLine T.machine (T.makes setting) T.IsAlone facts lanes item h next) →
        (items : List Item) → Follow T.passes (T.makes setting) T.IsAlone lanes items h →
        Follow T.passes (T.makes setting) T.IsAlone lanes (items ++ item ∷ [])
        (after (pass_of lanes item.lane) goes.steps h) }
    ensures nothing { (setting : T.Setting) (facts : T.Facts) (lanes : List Lane) (item : Item)
        (h : List (Event T.Step)) (now : T.State) → is_among item.lane lanes ≡ true →
        StandsOpen T.machine T.passes facts lanes h now →
        T.makes setting item.lane (pass_of lanes item.lane) item.act h [] →
        GoesOnWithLine T.machine (T.makes setting) T.IsAlone facts lanes item h now }
{}

/// The closing of a phase: the passes of a history that stands end, it is complete with that, and the state stays.
pub fn closings_complete<T: LineTable>()
    ensures complete { (facts : T.Facts) (lanes : List Lane) (h : List (Event T.Step)) (now : T.State) →
        StandsOpen T.machine T.passes facts lanes h now →
        IsComplete T.machine facts (closing_of T.passes lanes h) }
    ensures state { (facts : T.Facts) (lanes : List Lane) (h : List (Event T.Step)) (now : T.State) →
        StandsOpen T.machine T.passes facts lanes h now →
        state_after T.machine facts (closing_of T.passes lanes h) ≡ now }
{}

/// A history in file order has a pass for each lane with lines and no other, and each makes the acts of its lines.
pub fn file_order_makes_lines<T: LineTable>()
    ensures lanes { (setting : T.Setting) (shape : Shape) (items : List Item) (h : List (Event T.Step)) →
        IsFileOrder T.passes (T.makes setting) T.IsAlone shape items h →
        HasLanes T.machine.role (lanes_of shape items) h }
    ensures lines { (setting : T.Setting) (shape : Shape) (items : List Item) (h : List (Event T.Step)) →
        IsFileOrder T.passes (T.makes setting) T.IsAlone shape items h →
        MakesLines (T.makes setting) (lanes_of shape items) items h }
{}
