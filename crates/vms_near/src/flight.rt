ghost use Rattle.vms_near.specs.CallFlight.{CallsFlyLittle};

use vms_calls::ThresholdRules;
use vms_drift::calls_carry_little;

/// How much a pass has in flight inside a call. Inside a change it has its size, of the counter that it changes alone,
/// and half a threshold more if others take differentials of its CPU meanwhile. Inside a fold of its own CPU, or of one
/// that is dead, it has nothing; inside any other fold and a burial at most 125 pages of a counter; and inside every
/// other call nothing.
pub fn calls_fly_little<R: ThresholdRules>()
    ensures inside { CallsFlyLittle R.pressure R.normal }
{
    calls_carry_little::<R>();
}
