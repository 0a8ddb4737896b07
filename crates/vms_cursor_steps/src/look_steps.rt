//! The steps of changes, of looks at a value and of tests. Each kind of call has a function of its own, so that only
//! its own positions take room where a step is made.

ghost use Rattle.std.specs.Prelude.{◌≡◌, ℕ, false, IsTrue};
ghost use Rattle.vms_calls.specs.Common.{Header as HeaderOf, IsCounter, IsLayout, IsZone, WaterMark};
ghost use Rattle.vms_cursors.specs.Changes.{change_at};
ghost use Rattle.vms_cursors.specs.Cursors.{GoesOn};
ghost use Rattle.vms_cursors.specs.Loads.{system_at, value_at};
ghost use Rattle.vms_cursors.specs.Snapshots.{snapshot_at};
ghost use Rattle.vms_cursors.specs.Tests.{test_at};

use vms_base::{CounterId, ItemId, Layout, PlaceId};
use vms_core::Step;
use vms_cursors::{Change, ChangePosition, LoadPosition, SnapshotPosition, TestPosition};

/// Goes on by a step of a change, if this is the step that is due: whether it went on. Where it didn't, nothing
/// changes.
pub(crate) fn change_on(
    at: &mut ChangePosition,
    change: &Change,
    layout: &Layout,
    step: &Step,
) -> bool
    requires { IsCounter layout.now change.now.counter.number }
    ensures goes { IsTrue result →
        GoesOn (change_at layout.now change.now at.old) step.now (change_at layout.now change.now at.new) }
    ensures same { result ≡ false → at.new ≡ at.old }
{
    match at.next(change, layout, *step) {
        Some(later) => {
            *at = later;
            true
        }
        None => false,
    }
}

/// The same of a look at a counter.
pub(crate) fn value_on(at: &mut LoadPosition, counter: CounterId, step: &Step) -> bool
    ensures goes { IsTrue result → GoesOn (value_at counter at.old) step.now (value_at counter at.new) }
    ensures same { result ≡ false → at.new ≡ at.old }
{
    match at.next_value(counter, *step) {
        Some(later) => {
            *at = later;
            true
        }
        None => false,
    }
}

/// The same of a look at a system-wide value.
pub(crate) fn system_on(at: &mut LoadPosition, item: ItemId, step: &Step) -> bool
    ensures goes { IsTrue result → GoesOn (system_at item at.old) step.now (system_at item at.new) }
    ensures same { result ≡ false → at.new ≡ at.old }
{
    match at.next_system(item, *step) {
        Some(later) => {
            *at = later;
            true
        }
        None => false,
    }
}

/// The same of a snapshot.
pub(crate) fn snapshot_on(
    at: &mut SnapshotPosition,
    counter: CounterId,
    layout: &Layout,
    step: &Step,
) -> bool
    requires { IsCounter layout.now counter.number }
    ensures goes { IsTrue result →
        GoesOn (snapshot_at layout.now counter at.old) step.now (snapshot_at layout.now counter at.new) }
    ensures same { result ≡ false → at.new ≡ at.old }
{
    match at.next(counter, layout, *step) {
        Some(later) => {
            *at = later;
            true
        }
        None => false,
    }
}

/// The same of a test of a watermark.
pub(crate) fn test_on(at: &mut TestPosition, zone: PlaceId, layout: &Layout, step: &Step) -> bool
    requires layout { IsLayout layout.now }
    requires zone { IsZone layout.now zone.number }
    ensures goes { IsTrue result → (header : HeaderOf) (mark : WaterMark) (most : ℕ) → header.layout ≡ layout.now →
        GoesOn (test_at header zone mark most at.old) step.now (test_at header zone mark most at.new) }
    ensures same { result ≡ false → at.new ≡ at.old }
{
    match at.next(layout, zone, *step) {
        Some(later) => {
            *at = later;
            true
        }
        None => false,
    }
}
