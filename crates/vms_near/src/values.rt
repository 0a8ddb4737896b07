ghost use Rattle.vms_calls.specs.Common.{Facts, History};
ghost use Rattle.vms_core.specs.Pages.{IsLegal};
ghost use Rattle.vms_near.specs.HidingBounds.{HidingIsBounded, ItemHidingIsBounded};
ghost use Rattle.vms_near.specs.Near.{ValuesTellNearly};
ghost use Rattle.vms_near.specs.SystemNear.{SystemValuesTellNearly};

/// How far the value of a counter may be from its true total at any moment.
pub fn values_tell_nearly()
    ensures values { (facts : Facts) (h : History) → IsLegal facts h → ValuesTellNearly facts h }
{}

/// How far the system-wide value of an item may be from its true total at any moment.
pub fn system_values_tell_nearly()
    ensures values { (facts : Facts) (h : History) → IsLegal facts h → SystemValuesTellNearly facts h }
{}

/// What the CPUs may hide of each counter of a place is at most their peaks together, 125 pages for each CPU that is
/// present, and the slack of a zone, and once the newest thresholds of a zone are acknowledged it is those together.
pub fn hiding_is_bounded()
    ensures bounds { (facts : Facts) (h : History) → IsLegal facts h → HidingIsBounded facts h }
{}

/// What the CPUs may hide of each item is at most 125 pages for each CPU that is present and each counter of the item,
/// and of an item of zones the slacks of all zones.
pub fn item_hiding_is_bounded()
    ensures bounds { (facts : Facts) (h : History) → IsLegal facts h → ItemHidingIsBounded facts h }
{}
