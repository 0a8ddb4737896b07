ghost use Rattle.vms_format_trials.specs.Thresholds.{normal_rows, pressure_rows};
ghost use Rattle.vms_format_trials.specs.Rows.{AreRight};

use vms_calc::{Rule, Rules};

/// Thresholds have these values: the limits of each range, and the sizes where C's 32-bit numbers give Linux another
/// one.
pub fn thresholds_are_known()
    ensures normal { AreRight normal_rows }
    ensures pressure { AreRight pressure_rows }
{}

/// Threads may share stored rules whose closures they may share.
pub fn rules_may_be_shared<N: Rule + Sync, P: Rule + Sync>(rules: &Rules<N, P>) {
    shared(rules)
}

/// Takes what threads may share.
fn shared<T: Sync>(_: &T) {}
