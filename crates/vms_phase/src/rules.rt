ghost use Rattle.std.specs.Prelude.{◌≡◌};

use vms_calls::ThresholdRules;

/// A rule that answers 1 for every zone. Which passes live doesn't depend on the thresholds that are set, so any rule
/// shows it.
pub(crate) struct Least;

impl ThresholdRules for Least {
    ghost pressure = { λ size online t. t ≡ 1 };

    ghost normal = { λ size online t. t ≡ 1 };
}
