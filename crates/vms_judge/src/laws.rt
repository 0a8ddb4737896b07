ghost use Rattle.std.specs.Prelude.{◌≡◌, List};
ghost use Rattle.vms_history.specs.declared.events.Event.{Event};
ghost use Rattle.vms_judge.specs.declared.verdicts.Verdict.{Verdict};
ghost use Rattle.vms_judge.specs.Verdicts.{IsVerdict};

use vms_history::Table;

/// At most one verdict is true of facts and events.
pub fn one_verdict<T: Table>()
    ensures { (facts : T.Facts) (events : List (Event T.Step)) (first second : Verdict) →
        IsVerdict T.machine facts events first → IsVerdict T.machine facts events second →
        first ≡ second }
{}
