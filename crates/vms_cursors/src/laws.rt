ghost use Rattle.std.specs.Prelude.{ℕ};
ghost use Rattle.vms_calls.specs.Common.{Header, History, IsLayout, State};
ghost use Rattle.vms_plans.specs.Common.{IsOpen};
ghost use Rattle.vms_cursors.specs.Calls.{IsWithin, cursor_at};
ghost use Rattle.vms_cursors.specs.Completions.{CanEnd, CursorMayFindOnline, RulesAnswer, RulesAnswerOnline};
ghost use Rattle.vms_cursors.specs.declared.cursors.Cursor.{Cursor};

use vms_calls::ThresholdRules;
use vms_plans::plans_stay_open;

/// At each cursor the plan that is left doesn't come to a refusal, whatever its steps tell and the rules choose. Where
/// the rules answer, some steps complete it. Where they answer for 1 to 128 CPUs, this holds of each cursor within the
/// layout that has found a CPU online or may still find one.
pub fn cursors_can_be_completed<R: ThresholdRules>()
    ensures stays_open { (header : Header) (base : State) (p : ℕ) (h : History) (cursor : Cursor) →
        IsOpen (cursor_at header base p R.pressure R.normal h cursor) }
    ensures completed { (header : Header) (base : State) (p : ℕ) (h : History) (cursor : Cursor) →
        RulesAnswer header R.pressure R.normal → CanEnd (cursor_at header base p R.pressure R.normal h cursor) }
    ensures completed_online { (header : Header) (base : State) (p : ℕ) (h : History) (cursor : Cursor) →
        IsLayout header.layout → IsWithin header.layout cursor → CursorMayFindOnline header.layout cursor →
        RulesAnswerOnline header R.pressure R.normal → CanEnd (cursor_at header base p R.pressure R.normal h cursor) }
{
    plans_stay_open::<R>();
}
