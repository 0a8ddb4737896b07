ghost use Rattle.std.specs.Prelude.{◌≡◌, ◌<◌, ◌≤◌, ◌^◌, unsigned_abs};
ghost use Rattle.vms_core.specs.Common.{carried_by, differential_after};

use vms_base::Mode;
use vms_core::overstep;

/// What a change makes of a differential, in pages: the one that stays, and what goes to the global values.
#[derive(Clone, Copy)]
pub(crate) struct Changed {
    pub differential: i64,
    pub carried: i64,
}

#[inline]
pub(crate) fn change(mode: Mode, threshold: u32, found: i64, delta: i64) -> Changed
    requires found { unsigned_abs found ≤ 128 }
    requires delta { unsigned_abs delta ≤ 2 ^ 48 }
    ensures differential { result.differential ≡ differential_after mode threshold found delta }
    ensures carried { result.carried ≡ carried_by mode threshold found delta }
    ensures bound { unsigned_abs result.carried < 2 ^ 62 }
{
    let sum = found + delta;
    if sum.unsigned_abs() <= threshold as u64 {
        return Changed {
            differential: sum,
            carried: 0,
        };
    }
    let overstep = overstep(mode, threshold);
    Changed {
        differential: -overstep,
        carried: sum + overstep,
    }
}
