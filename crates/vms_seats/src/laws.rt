ghost use Rattle.std.specs.Prelude.{List, [], ◌∷◌, ◌++◌};
ghost use Rattle.vms_seats.specs.Passes.{Pass, IsLive};
ghost use Rattle.vms_seats.specs.Steps.{Made, MadeOne};

use crate::Ledger;

/// What a pass has made in calls: no step yet, one more step, and the steps of two calls in a row. It lives after them,
/// and owns what it owned.
pub fn calls_add_up<L: Ledger>()
    ensures none { (pass : Pass L.Facts L.Step) → IsLive L.machine pass → Made L.machine pass pass [] }
    ensures next { (last later earlier : Pass L.Facts L.Step) (steps : List L.Step) (step : L.Step) →
        MadeOne L.machine last later step → Made L.machine later earlier steps →
        Made L.machine last earlier (steps ++ step ∷ []) }
    ensures both { (last later earlier : Pass L.Facts L.Step) (first second : List L.Step) →
        Made L.machine last later second → Made L.machine later earlier first →
        Made L.machine last earlier (first ++ second) }
    ensures live { (later earlier : Pass L.Facts L.Step) (steps : List L.Step) → IsLive L.machine earlier →
        Made L.machine later earlier steps → IsLive L.machine later }
{}
