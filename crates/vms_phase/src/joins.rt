ghost use Rattle.std.specs.Prelude.{ℕ, suc, ◌<◌, List, [], ◌∷◌, ◌++◌, length};
ghost use Rattle.vms_phase.specs.LanePasses.{AreFresh, AreWhole, BeginPasses, EndPasses, HaveBegun, HaveEnded};
ghost use Rattle.vms_phase.specs.LanePasses.{HaveNumber};
ghost use Rattle.vms_world.specs.Common.{Header, Fits, Start, Item, Lane, lanes_of, owner_of};
ghost use Rattle.vms_file_order.specs.Common.{IsStartOf};
ghost use Rattle.vms_phase.specs.EndedTables.{HaveAllEnded};
ghost use Rattle.vms_tables.specs.declared.tables.Tables.{Tables};
ghost use Rattle.vms_tables.specs.Common.{AreFrom, TablePasses, AreMadeFrom, AreTables};
ghost use Rattle.vms_world.specs.declared.worlds.World.{World};

use crate::turns::{lanes_begin_in_turn, lanes_end_in_turn};
use vms_calls::ThresholdRules;
use vms_file_order::{EventLines, PageLines, PcpuLines};

/// The main passes of the three tables begin the passes of a further lane, which have made no step under the next
/// number. Once they have begun the passes of all lanes they end them in the same order, and what the passes of a lane
/// had made when they ended is whole, then and later.
pub fn lanes_go_in_turn<R: ThresholdRules>()
    ensures begun { (lanes : List Lane) (lane : Lane) (new old passes : TablePasses) → HaveBegun lanes old →
        BeginPasses (owner_of lane) new old passes → HaveBegun (lanes ++ lane ∷ []) new }
    ensures fresh { (lanes : List Lane) (lane : Lane) (new old passes : TablePasses) → HaveBegun lanes old →
        BeginPasses (owner_of lane) new old passes → AreFresh (suc (length lanes)) passes }
    ensures none { (lanes : List Lane) (mains : TablePasses) → HaveBegun lanes mains → HaveEnded lanes 0 mains }
    ensures ended { (lanes : List Lane) (n : ℕ) (new old last : TablePasses) → n < length lanes →
        HaveEnded lanes n old → HaveNumber (suc n) last → EndPasses new old last → HaveEnded lanes (suc n) new }
    ensures whole { (lanes : List Lane) (n : ℕ) (new old first last : TablePasses) → n < length lanes →
        HaveEnded lanes n old → AreFresh (suc n) first → HaveNumber (suc n) last → EndPasses new old last →
        AreWhole (suc n) first last new }
    ensures still { (lanes : List Lane) (n i : ℕ) (new old passes first last : TablePasses) → n < length lanes →
        HaveEnded lanes n old → HaveNumber (suc n) passes → EndPasses new old passes → i < n →
        AreWhole (suc i) first last old → AreWhole (suc i) first last new }
{
    lanes_begin_in_turn::<PageLines<R>>();
    lanes_begin_in_turn::<EventLines>();
    lanes_begin_in_turn::<PcpuLines>();
    lanes_end_in_turn::<PageLines<R>>();
    lanes_end_in_turn::<EventLines>();
    lanes_end_in_turn::<PcpuLines>();
}

/// Where the lines fit a start of the world that the tables were made from, no pass lives any more once the main passes
/// have ended the lanes of all.
pub fn fitting_lanes_have_ended<R: ThresholdRules>()
    ensures { (header : Header) (tables : Tables) (w : World) (start : Start) (items : List Item)
        (mains : TablePasses) → AreTables header tables → AreMadeFrom w tables →
        AreFrom tables mains →
        IsStartOf header start w → Fits header start items →
        HaveEnded (lanes_of header.layout items) (length (lanes_of header.layout items)) mains →
        HaveAllEnded mains }
{
    lanes_end_in_turn::<PageLines<R>>();
    lanes_end_in_turn::<EventLines>();
    lanes_end_in_turn::<PcpuLines>();
}
