ghost use Rattle.std.specs.Prelude.{◌≡◌};
ghost use Rattle.vms_calls.specs.Common.{Diffs, eight_zeros, peak, one_zone, found_none, found_newest, found_older};
ghost use Rattle.vms_calls.specs.Common.{uncovered_threshold, uncovered_mark, acknowledged_early, acknowledged_other};
ghost use Rattle.vms_core.specs.Pages.{IsLegal};

/// A CPU's threshold is lowered from 20 to 5, and later to 3. Where the control pass finds 5 acknowledged while it is
/// the newest, the peak falls to 5. Where it finds nothing acknowledged, or 5 once 3 was set, the peak stays.
pub fn newest_acknowledgement_settles()
    ensures none_legal { IsLegal one_zone found_none }
    ensures none { peak one_zone 0 0 found_none ≡ 20 }
    ensures newest_legal { (zeros : Diffs) → zeros.values ≡ eight_zeros → IsLegal one_zone (found_newest zeros) }
    ensures newest { (zeros : Diffs) → peak one_zone 0 0 (found_newest zeros) ≡ 5 }
    ensures older_legal { (zeros : Diffs) → zeros.values ≡ eight_zeros → IsLegal one_zone (found_older zeros) }
    ensures older { (zeros : Diffs) → peak one_zone 0 0 (found_older zeros) ≡ 20 }
{}

/// A threshold above the 30 pages between `min` and `low` is illegal under no mark, and so is a mark below 180, that is
/// `high` and the peak of 20. So is an acknowledgement with differentials left, and one of a number that wasn't told.
pub fn uncovered_and_unearned_are_illegal()
    ensures threshold { IsLegal one_zone uncovered_threshold → ⊥ }
    ensures mark { IsLegal one_zone uncovered_mark → ⊥ }
    ensures early { IsLegal one_zone acknowledged_early → ⊥ }
    ensures other { (zeros : Diffs) → IsLegal one_zone (acknowledged_other zeros) → ⊥ }
{}
