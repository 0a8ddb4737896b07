ghost use Rattle.std.specs.Prelude.{◌≡◌};
ghost use Rattle.vms_calls.specs.Common.{entry, carried_by};

use crate::Change;
use vms_base::Diffs;
use vms_core::overstep;

/// What a change carries to the global values, from the list that it put a differential into, under this threshold.
pub fn amount(change: &Change, t: u32, list: &Diffs) -> i64
    ensures { result ≡ carried_by change.now.mode t (entry list.now.values change.now.counter.number) change.now.delta }
{
    let sum = list.values[(change.counter.number % 8) as usize] + change.delta;
    if sum.unsigned_abs() <= t as u64 {
        return 0;
    }
    sum + overstep(change.mode, t)
}
