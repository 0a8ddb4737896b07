ghost use Rattle.std.specs.Prelude.{◌≡◌, ℕ, [], ◌∷◌, false, IsTrue};
ghost use Rattle.vms_calls.specs.Common.{History, IsHeader, State, after};
ghost use Rattle.vms_cursors.specs.Calls.{IsWithin, cursor_at, may_ask};
ghost use Rattle.vms_cursors.specs.Cursors.{GoesOn};

use crate::fold_steps::fold_on;
use crate::look_steps::{change_on, snapshot_on, system_on, test_on, value_on};
use crate::rating_steps::rate_on;
use crate::turn_steps::turn_on;
use vms_base::Header;
use vms_calls::ThresholdRules;
use vms_core::Step;
use vms_cursors::Cursor;

/// Goes on by a step, if this is the step that is due and the call goes on by it in place: whether it went on. Where it
/// didn't, nothing changes, and whether the step is due is left open.
pub fn go_on<R: ThresholdRules>(cursor: &mut Cursor, header: &Header, step: &Step) -> bool
    requires header { IsHeader header.now }
    requires within { IsWithin header.now.layout cursor.old }
    ensures goes { IsTrue result → (base : State) (p : ℕ) (h : History) →
        GoesOn (cursor_at header.now base p R.pressure R.normal h cursor.old) step.now
        (cursor_at header.now base p R.pressure R.normal (after p (step.now ∷ []) h) cursor.new) }
    ensures same { result ≡ false → cursor.new ≡ cursor.old }
    ensures kind { may_ask cursor.new ≡ may_ask cursor.old }
    ensures within { IsWithin header.now.layout cursor.new }
{
    match cursor {
        Cursor::Change(change, at) => change_on(at, change, &header.layout, step),
        Cursor::Value(counter, at) => value_on(at, *counter, step),
        Cursor::System(item, at) => system_on(at, *item, step),
        Cursor::Snapshot(counter, at) => snapshot_on(at, *counter, &header.layout, step),
        Cursor::Test(zone, _, _, at) => test_on(at, *zone, &header.layout, step),
        Cursor::Fold(_, _) => fold_cursor_on::<R>(cursor, header, step),
        Cursor::Rates(call, at) => rate_on::<R>(at, *call, &header.layout, step),
        Cursor::Turn(turn, at) => turn_on::<R>(at, *turn, header, step),
        _ => false,
    }
}

/// The same of a fold, and else false.
fn fold_cursor_on<R: ThresholdRules>(cursor: &mut Cursor, header: &Header, step: &Step) -> bool
    requires header { IsHeader header.now }
    requires within { IsWithin header.now.layout cursor.old }
    ensures goes { IsTrue result → (base : State) (p : ℕ) (h : History) →
        GoesOn (cursor_at header.now base p R.pressure R.normal h cursor.old) step.now
        (cursor_at header.now base p R.pressure R.normal (after p (step.now ∷ []) h) cursor.new) }
    ensures same { result ≡ false → cursor.new ≡ cursor.old }
    ensures kind { may_ask cursor.new ≡ may_ask cursor.old }
    ensures within { IsWithin header.now.layout cursor.new }
{
    match *cursor {
        Cursor::Fold(fold, at) => {
            let mut later = at;
            if !fold_on(&mut later, fold, &header.layout, step) {
                return false;
            }
            let next = Cursor::Fold(fold, later);
            *cursor = next;
            true
        }
        _ => false,
    }
}
