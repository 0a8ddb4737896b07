ghost use Rattle.vms_drift.specs.Transit.{CallsCarryLittle, CallsCarryNothingOn};

use vms_calls::{ThresholdRules, page_calls_keep_their_laws};

/// How much is in transit: what a pass took out of differentials and hasn't added to the global values yet. A pass that
/// makes calls carries nothing between two of them. Inside a fold and a burial it carries at most 125 pages of a
/// counter, inside a change at most its size and 187 pages, and only of the counter that it changes. Inside any other
/// call it carries nothing. The same holds of system-wide values, where a fold and a burial carry at most 125 pages for
/// each zone, or for each node if the item is one of nodes.
pub fn calls_carry_little<R: ThresholdRules>()
    ensures inside { CallsCarryLittle R.pressure R.normal }
    ensures between { CallsCarryNothingOn R.pressure R.normal }
{
    page_calls_keep_their_laws::<R>();
}
