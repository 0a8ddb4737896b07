ghost use Rattle.std.specs.Prelude.{◌≡◌, ℕ, true, Option, List};
ghost use Rattle.vms_base.specs.declared.ids.CpuId.{CpuId};
ghost use Rattle.vms_history.specs.declared.events.Event.{Event};
ghost use Rattle.vms_history.specs.Legal.{IsLegal, state_after};
ghost use Rattle.vms_history.specs.PassSteps.{MayMake};
ghost use Rattle.vms_history.specs.Passes.{lives_in, owner_in};
ghost use Rattle.vms_history.specs.InRow.{GoesOnTo, LeadsOn};

use crate::StateTable;

/// A legal history goes on with steps that a pass may make, where they lead from its state to another: then it is
/// legal, and that is its state.
pub fn steps_go_on_alone<T: StateTable>()
    ensures { (facts : T.Facts) (h : List (Event T.Step)) (p : ℕ) (who : Option CpuId) (steps : List T.Step)
        (next : T.State) → IsLegal T.machine facts h → lives_in T.machine.role h p ≡ true
        → owner_in T.machine.role h p ≡ who → MayMake T.machine T.Tells facts p h steps
        → LeadsOn T.by_state who steps (state_after T.machine facts h) next
        → GoesOnTo T.machine facts p steps h next }
{}
