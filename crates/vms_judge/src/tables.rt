ghost use Rattle.std.specs.Prelude.{◌≡◌};
ghost use Rattle.vms_judge.specs.Roles.{role_of};

use crate::Role;
use vms_history::Table;

/// A table whose steps tell what they do to the passes.
pub trait RoleTable: Table {
    /// What a step does to the passes.
    fn role(step: &Self::Step) -> Role
        ensures { role_of result ≡ Self.machine.role step.now };
}
