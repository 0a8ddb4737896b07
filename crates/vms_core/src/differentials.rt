ghost use Rattle.std.specs.Prelude.{◌≡◌, ◌+◌, ◌≤◌, ◌^◌, unsigned_abs};
ghost use Rattle.vms_core.specs.Changes.{overstep_of, differential_after, carried_by};

use vms_base::Mode;

/// What a change of a counter makes of a differential, in pages.
#[derive(Clone, Copy, Debug, PartialEq, Eq)]
pub struct Changed {
    /// The differential that stays.
    pub differential: i64,
    /// What goes to the global values.
    pub carried: i64,
}

/// How far a change that passes the threshold goes beyond what it has to.
#[inline]
pub fn overstep(mode: Mode, threshold: u32) -> i64
    ensures value { result ≡ overstep_of mode threshold }
    ensures within { unsigned_abs result ≤ threshold }
{
    match mode {
        Mode::Mod => 0,
        Mode::Inc => (threshold / 2) as i64,
        Mode::Dec => -((threshold / 2) as i64),
    }
}

/// What a change makes of the differential that it found (`mod_zone_state` of mm/vmstat.c).
#[inline]
pub fn change(mode: Mode, threshold: u32, found: i64, delta: i64) -> Changed
    requires found { unsigned_abs found ≤ 128 }
    requires delta { unsigned_abs delta ≤ 2 ^ 48 }
    ensures differential { result.differential ≡ differential_after mode threshold found delta }
    ensures carried { result.carried ≡ carried_by mode threshold found delta }
    ensures within { unsigned_abs result.differential ≤ threshold }
    ensures bound { unsigned_abs result.carried ≤ unsigned_abs found + unsigned_abs delta + threshold }
{
    let sum = found + delta;
    if sum.unsigned_abs() <= threshold as u64 {
        return Changed {
            differential: sum,
            carried: 0,
        };
    }
    let overstep = overstep(mode, threshold);
    Changed {
        differential: -overstep,
        carried: sum + overstep,
    }
}
