ghost use Rattle.std.specs.Prelude.{List, [], ◌∷◌, ◌++◌, map};
ghost use Rattle.vms_world.specs.Common.{Header, IsLineOf, Fits, Start, line_of, Item, Lane, lanes_of, TableHistories};
ghost use Rattle.vms_world.specs.Common.{StayWithinVolumes};
ghost use Rattle.vms_world.specs.declared.worlds.World.{World};
ghost use Rattle.vms_file_order.specs.FittingLines.{MayFollow};
ghost use Rattle.vms_file_order.specs.LanePasses.{StandOnce};
ghost use Rattle.vms_file_order.specs.OpenPhases.{IsOpenPhase, TableStates, opening_states, openings_of};
ghost use Rattle.vms_file_order.specs.WorldStarts.{IsStartOf};

use crate::phases_spend_their_lines;
use vms_calls::ThresholdRules;

/// A front of a script that fits, fits, and the line after it is one of the header.
pub fn fronts_fit()
    ensures front { (header : Header) (start : Start) (items more : List Item) →
        Fits header start (items ++ more) → Fits header start items }
    ensures next { (header : Header) (start : Start) (items : List Item) (item : Item) (more : List Item) →
        Fits header start (items ++ item ∷ more) → IsLineOf header (line_of item) }
{}

/// A phase of lines that fit a start of its world opens for the lanes that have lines.
pub fn fitting_phases_open<R: ThresholdRules>()
    ensures { (header : Header) (w : World) (items : List Item) (start : Start) → IsStartOf header start w →
        Fits header start items →
        IsOpenPhase header R.pressure R.normal w (lanes_of header.layout items) []
        (openings_of (lanes_of header.layout items)) (opening_states header w) }
{}

/// Some lines of a script that fits a start of its world have come in an open phase: no CPU has passed its volumes, and
/// the next line may follow, by the states that the CPUs are in and by those that the phase began with.
pub fn fitting_lines_follow<R: ThresholdRules>()
    ensures volumes { (header : Header) (w : World) (lanes : List Lane) (items : List Item)
        (hs : TableHistories)
        (now : TableStates) (start : Start) (more : List Item) → StandOnce lanes →
        IsOpenPhase header R.pressure R.normal w lanes items hs now → IsStartOf header start w →
        Fits header start (items ++ more) → StayWithinVolumes header w hs }
    ensures next { (header : Header) (w : World) (lanes : List Lane) (items : List Item)
        (hs : TableHistories)
        (now : TableStates) (start : Start) (item : Item) (more : List Item) → StandOnce lanes →
        IsOpenPhase header R.pressure R.normal w lanes items hs now → IsStartOf header start w →
        Fits header start (items ++ item ∷ more) → MayFollow now.pages (map line_of items) item.lane item.act }
    ensures opening { (header : Header) (w : World) (items : List Item) (start : Start) (item : Item)
        (more : List Item) → IsStartOf header start w → Fits header start (items ++ item ∷ more) →
        MayFollow w.pages (map line_of items) item.lane item.act }
{
    phases_spend_their_lines::<R>();
}
