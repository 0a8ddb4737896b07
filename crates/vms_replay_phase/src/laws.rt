ghost use Rattle.std.specs.Prelude.{◌≡◌, List, [], ◌∷◌, ◌++◌};
ghost use Rattle.vms_world.specs.Common.{Header, IsLineOf, Item, Lane, line_of, FitVolumes, volumes_after};
ghost use Rattle.vms_world.specs.Common.{TableHistories, SpendTheirLines, IsWorldOf};
ghost use Rattle.vms_file_order.specs.Common.{StandOnce, IsOpenPhase, TableStates};
ghost use Rattle.vms_replay_phase.specs.CountedVolumes.{CountVolumes};
ghost use Rattle.vms_replay_phase.specs.Spending.{AreVolumesOf, spent_by_line};
ghost use Rattle.vms_world.specs.declared.worlds.Volumes.{Volumes};
ghost use Rattle.vms_world.specs.declared.worlds.World.{World};

use vms_calc::{Rule, Rules};

/// The volumes of a world count what the lines of a phase spend: they do when it opens, and go on with each line that
/// spends what it says. None is past the most as long as the lines fit the volumes, and when the phase closes they are
/// those of the world that it leaves.
pub fn volumes_count_phases()
    ensures opens { (header : Header) (w : World) → IsWorldOf header w → CountVolumes header w [] w.volumes }
    ensures goes_on { (header : Header) (w : World) (items : List Item) (v : Volumes) →
        CountVolumes header w items v → (item : Item) → IsLineOf header (line_of item) →
        CountVolumes header w (items ++ item ∷ []) (spent_by_line header item.lane item.act v) }
    ensures within { (header : Header) (w : World) (items : List Item) (v : Volumes) → IsWorldOf header w →
        CountVolumes header w items v → FitVolumes header w items → AreVolumesOf header v }
    ensures closes { (header : Header) (w : World) (items : List Item) (v : Volumes) →
        CountVolumes header w items v → v ≡ volumes_after header w items }
{}

/// In an open phase each CPU has spent what its lines so far say, and of a percpu counter at most that.
pub(crate) fn open_phases_spend_their_lines<N: Rule, P: Rule>(rules: &Rules<N, P>)
    ensures { (header : Header) (w : World) (lanes : List Lane) (items : List Item)
        (hs : TableHistories)
        (now : TableStates) → StandOnce lanes →
        IsOpenPhase header (P.answers rules.now.pressure) (N.answers rules.now.normal) w lanes items hs now →
        SpendTheirLines header items hs }
{
    rules.tells();
}
