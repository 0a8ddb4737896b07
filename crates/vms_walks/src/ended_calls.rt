ghost use Rattle.std.specs.Prelude.{ℕ, IsTrue};
ghost use Rattle.vms_core.specs.Pages.{History};
ghost use Rattle.vms_cursors.specs.Calls.{IsReady, IsWithin, answer_of, cursor_at};
ghost use Rattle.vms_cursors.specs.Cursors.{HasEnded};
ghost use Rattle.vms_world.specs.Common.{IsHeader, State};

use vms_base::Header;
use vms_calls::ThresholdRules;
use vms_cursors::Cursor;

/// Whether a call has surely ended. Of a call that may ask the rules of thresholds that is left open.
pub(crate) fn has_ended<R: ThresholdRules>(cursor: &Cursor, header: &Header) -> bool
    requires header { IsHeader header.now }
    requires within { IsWithin header.now.layout cursor.now }
    ensures ready { IsTrue result → IsReady cursor.now }
    ensures ended { IsTrue result → (base : State) (p : ℕ) (h : History) →
        HasEnded (cursor_at header.now base p R.pressure R.normal h cursor.now) (answer_of header.now cursor.now) }
{
    match cursor {
        Cursor::Change(change, at) => at.due(change, &header.layout).is_none(),
        Cursor::Value(counter, at) => at.due_value(*counter).is_none(),
        Cursor::System(item, at) => at.due_system(*item).is_none(),
        Cursor::Snapshot(counter, at) => at.due(*counter, &header.layout).is_none(),
        Cursor::Test(zone, _, _, at) => at.due(&header.layout, *zone).is_none(),
        Cursor::Fold(fold, at) => at.due(*fold, &header.layout).is_none(),
        Cursor::Rates(_, _) | Cursor::Bury(_, _) | Cursor::Turn(_, _) => false,
    }
}
