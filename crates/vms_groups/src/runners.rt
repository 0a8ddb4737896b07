use vms_base::Memory;
use vms_group_core::Tree;
use vms_group_phase::{GroupItem, GroupPhaseDone, GroupWorld};

/// What runs the lines of a phase from a world. Every closure over them is one.
pub(crate) trait GroupRunner: Drop {
    ghost use Rattle.std.specs.Prelude.{List, Result};
    ghost use Rattle.vms_base.specs.declared.failures.Memory.{Memory};
    ghost use Rattle.vms_group_core.specs.declared.trees.Tree.{Tree};
    ghost use Rattle.vms_group_phase.specs.declared.items.GroupItem.{GroupItem};
    ghost use Rattle.vms_group_phase.specs.declared.phases.GroupPhaseDone.{GroupPhaseDone};
    ghost use Rattle.vms_group_phase.specs.declared.worlds.GroupWorld.{GroupWorld};

    // The runner may be called with these lines of a phase from this world.
    ghost accepts: { Self → Tree → GroupWorld → List GroupItem → Type 0 };

    // The last is what it may return then.
    ghost returns: { Self → Tree → GroupWorld → List GroupItem → Result GroupPhaseDone Memory → Type 0 };

    fn run(
        &self,
        tree: &Tree,
        world: GroupWorld,
        items: &[GroupItem],
    ) -> Result<GroupPhaseDone, Memory>
        requires { accepts self.now tree.now world items.now }
        ensures { returns self.now tree.now world items.now result };
}

impl<F: Fn(&Tree, GroupWorld, &[GroupItem]) -> Result<GroupPhaseDone, Memory>> GroupRunner for F {
    ghost use Rattle.vms_groups.specs.GroupRunners.{AcceptsPhase, ReturnsPhase};

    ghost accepts = { AcceptsPhase F.Fn };

    ghost returns = { ReturnsPhase F.Fn };

    fn run(
        &self,
        tree: &Tree,
        world: GroupWorld,
        items: &[GroupItem],
    ) -> Result<GroupPhaseDone, Memory> {
        self(tree, world, items)
    }
}
