ghost use Rattle.std.specs.Prelude.{◌≢◌, ℕ, ◌+◌};
ghost use Rattle.vms_event_core.specs.declared.steps.EventFacts.{EventFacts};
ghost use Rattle.vms_event_core.specs.declared.steps.EventStep.{EventStep};
ghost use Rattle.vms_event_core.specs.Common.{History, IsEvent, IsLegal, KeepsLaws};
ghost use Rattle.vms_event.specs.SharedWords.{event_place};
ghost use Rattle.vms_history.specs.Common.{Extends};
ghost use Rattle.vms_rows.specs.Common.{line_of};
ghost use Rattle.vms_seats.specs.Common.{Pass};

use crate::passes::{EventCaller, EventControl, EventPass};
use crate::tables::EventMain;
use vms_event_core::laws_are_kept;
use vms_rows::rows_share_no_line;

/// A pass of the event counters: one that owns a CPU, the control pass or the main pass.
pub trait AnyEventPass {
    // The pass that it is.
    ghost pass: { Self → Pass EventFacts EventStep };

    /// What a pass has seen is legal.
    fn has_seen_legal(&self)
        ensures { IsLegal (pass self.now).facts (pass self.now).seen };
}

impl AnyEventPass for EventPass {
    ghost pass = { λ p. p.pass };

    fn has_seen_legal(&self) {
        self.is_live();
    }
}

impl AnyEventPass for EventControl {
    ghost pass = { λ p. p };

    fn has_seen_legal(&self) {
        self.is_control();
    }
}

impl AnyEventPass for EventMain {
    ghost pass = { λ p. p };

    fn has_seen_legal(&self) {
        self.is_main();
    }
}

/// While others act too, at every moment of what a pass has seen, no count is lost and none is counted twice: the words
/// of an event and what callers carry for it add up to the words of the base and all counts since. So it is with the
/// other laws of the event counters.
pub fn totals_are_kept<P: AnyEventPass>(pass: &P)
    ensures { (moment : History) → Extends (P.pass pass.now).seen moment →
        KeepsLaws (P.pass pass.now).facts moment }
{
    pass.has_seen_legal();
    laws_are_kept();
}

/// Words of two CPUs stand in two lines of 64 bytes, in whichever word of a line the first word of the table stands.
pub fn cpus_share_no_line()
    ensures { (start c d k m : ℕ) → IsEvent k → IsEvent m → c ≢ d →
        line_of (start + event_place c k) ≢ line_of (start + event_place d m) }
{
    rows_share_no_line();
}
