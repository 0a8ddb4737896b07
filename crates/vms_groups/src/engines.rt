ghost use Rattle.std.specs.Prelude.{◌≡◌, List, Option, MatchResult};
ghost use Rattle.vms_group_core.specs.Common.{IsTree};
ghost use Rattle.vms_group_phase.specs.Common.{FitGroups, IsGroupWorld};
ghost use Rattle.vms_groups.specs.GroupEngines.{MakesGroupPhase};
ghost use Rattle.vms_groups.specs.PastPhases.{PastGroupPhase};

use vms_base::Memory;
use vms_group_core::Tree;
use vms_group_phase::{GroupItem, GroupWorld, NumberedValue};

/// What makes the phases of a trace of groups, and keeps them.
pub(crate) trait GroupEngine {
    // The phases that were made so far, or none where the engine keeps none.
    ghost made: { Self → Option (List PastGroupPhase) };

    /// Makes a phase of these lines from a world. Returns the world that it leaves, and what its lines answered with a
    /// value, in their order.
    fn make_phase(
        &mut self,
        tree: &Tree,
        world: GroupWorld,
        items: Vec<GroupItem>,
    ) -> Result<(GroupWorld, Vec<NumberedValue>), Memory>
        requires tree { IsTree tree.now }
        requires world { IsGroupWorld tree.now world }
        requires fits { FitGroups tree.now world items.items }
        ensures { MatchResult result
            (λ done. MakesGroupPhase tree.now world items.items (made self.old) (made self.new) done.0 done.1.items)
            (λ _. made self.new ≡ made self.old) };
}
