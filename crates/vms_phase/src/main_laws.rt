ghost use Rattle.std.specs.Prelude.{◌≡◌, ℕ, suc, ◌<◌, ◌++◌, false, List, [], length, take};
ghost use Rattle.vms_world.specs.Common.{Event, after, own, begun_in, lives_in, Act, Lane, HasLanes, MakesActs};
ghost use Rattle.vms_world.specs.Common.{lane_at, owner_of};
ghost use Rattle.vms_seats.specs.Common.{MainMakes};
ghost use Rattle.vms_file_order.specs.Common.{MayOwnEach, StandOnce, begins_from, closing_of, ends_from, opening_of};

use vms_file_order::LineTable;

/// The main pass begins the pass of one lane more, or ends it, after those of the lanes before it. As many passes have
/// begun as lanes.
pub fn lanes_begin_and_end<T: LineTable>()
    ensures count { (lanes : List Lane) (h : List (Event T.Step)) →
        own h 0 ≡ after 0 (begins_from T.passes 1 lanes) [] → begun_in T.machine.role h ≡ length lanes }
    ensures begins { (facts : T.Facts) (lanes : List Lane) (n : ℕ) (later earlier : List (Event T.Step)) →
        n < length lanes → own earlier 0 ≡ after 0 (begins_from T.passes 1 (take n lanes)) [] →
        MainMakes T.machine facts later earlier (T.passes.begin (suc n) (owner_of (lane_at lanes n))) →
        own later 0 ≡ after 0 (begins_from T.passes 1 (take (suc n) lanes)) [] }
    ensures ends { (facts : T.Facts) (lanes : List Lane) (n : ℕ) (later earlier : List (Event T.Step)) →
        n < length lanes →
        own earlier 0 ≡ after 0 (ends_from T.passes 1 (take n lanes)) (opening_of T.passes lanes) →
        MainMakes T.machine facts later earlier (T.passes.end (suc n)) →
        own later 0 ≡ after 0 (ends_from T.passes 1 (take (suc n) lanes)) (opening_of T.passes lanes) }
{}

/// Where the main pass has begun and ended the passes of lanes, each lane has its pass, no other pass has begun, and
/// none lives.
pub fn whole_lanes<T: LineTable>()
    ensures lanes { (lanes : List Lane) (h : List (Event T.Step)) → StandOnce lanes →
        own h 0 ≡ closing_of T.passes lanes (opening_of T.passes lanes) → HasLanes T.machine.role lanes h }
    ensures ended { (facts : T.Facts) (lanes : List Lane) (h : List (Event T.Step)) → T.machine.CanBegin facts →
        MayOwnEach T.machine facts lanes → StandOnce lanes →
        own h 0 ≡ closing_of T.passes lanes (opening_of T.passes lanes) →
        (q : ℕ) → lives_in T.machine.role h q ≡ false }
{}

/// What others do afterwards leaves the acts that a caller has made.
pub fn acts_stay_made<T: LineTable>()
    ensures { (setting : T.Setting) (lane : Lane) (p : ℕ) (acts : List Act) (h m : List (Event T.Step)) →
        MakesActs (T.makes setting lane p) p acts h → own m p ≡ [] →
        MakesActs (T.makes setting lane p) p acts (m ++ h) }
{}
