ghost use Rattle.vms_calls.specs.Common.{Facts, Step, History, KeepsLaws, BoundsDrift, BoundsSystemDrift};
ghost use Rattle.vms_calls.specs.Common.{BoundsDifferentials, KeepsSystemTotals, KeepsTotals, BoundsByPeaks};
ghost use Rattle.vms_calls.specs.Common.{KeepsPeaksInRange};
ghost use Rattle.vms_core.specs.Pages.{IsLegal};
ghost use Rattle.vms_near.specs.Slack.{BoundsByMarks, ValuesTell};
ghost use Rattle.vms_look.specs.Truth.{AtEachMoment, MarksKeepHigh, NoMarksKeepLimit};
ghost use Rattle.vms_seats.specs.Common.{Pass};

use vms_words::{Caller, ControlPass, CpuPass, MainPass};

/// What a value of free pages means at any moment of a legal history, whatever threads carry then. Where the zone's
/// mark isn't 0 and the value isn't below it, the zone truly has `high` pages, less the negative amounts carried. Where
/// the mark is 0, it truly has more than any limit that the value exceeds, less `low - min` and less these amounts.
pub fn values_tell_true_pages()
    ensures marked { MarksKeepHigh }
    ensures unmarked { NoMarksKeepLimit }
{}

/// How far the counters of a zone are off at any moment of a legal history, whatever threads carry then: by at most
/// the slack of the zone, and the sizes of what is carried for the counter. The slack is `low - min` where the zone's
/// mark is 0, else the mark less `high`. Of a value, with 0 for a negative one, each side has its own bound. Where it
/// isn't 0, the true total is at least as much, less the slack and less the negative amounts carried. It is at most as
/// much, with the slack and the positive amounts carried.
pub fn marks_bound_zones()
    ensures bounds { (facts : Facts) (h : History) → IsLegal facts h → BoundsByMarks facts h }
    ensures near { (facts : Facts) (h : History) → IsLegal facts h → ValuesTell facts h }
{}

/// A pass of the page counters: one that owns a CPU, the control pass or the main pass.
pub trait AnyPagePass {
    // The pass that it is.
    ghost pass: { Self → Pass Facts Step };

    /// What a pass has seen is legal.
    fn has_seen_legal(&self)
        ensures { IsLegal (pass self.now).facts (pass self.now).seen };
}

impl AnyPagePass for CpuPass {
    ghost pass = { λ p. p.pass };

    fn has_seen_legal(&self) {
        self.is_live();
    }
}

impl AnyPagePass for ControlPass {
    ghost pass = { λ p. p };

    fn has_seen_legal(&self) {
        self.is_live();
    }
}

impl AnyPagePass for MainPass {
    ghost pass = { λ p. p };

    fn has_seen_legal(&self) {
        self.is_main();
    }
}

/// At every moment that a pass has seen, while others act, nothing is lost and no value is far off. The global value of
/// a counter, what the CPUs have not folded and what callers carry add up to the base and the changes made since; so do
/// the system-wide value of an item and those of its counters. A differential is at most the threshold that was used on
/// it last, and that at most the peak of its CPU and place, which is at most 125. So a global value alone is off by at
/// most the thresholds that the CPUs used last and the sizes of what callers carry; and one of a zone by at most the
/// slack of the zone and these sizes. All other laws of the page counters hold too.
pub fn totals_are_kept<P: AnyPagePass>(pass: &P)
    ensures totals { AtEachMoment (P.pass pass.now) KeepsTotals }
    ensures system_totals { AtEachMoment (P.pass pass.now) KeepsSystemTotals }
    ensures differentials { AtEachMoment (P.pass pass.now) BoundsDifferentials }
    ensures by_peaks { AtEachMoment (P.pass pass.now) BoundsByPeaks }
    ensures peaks { AtEachMoment (P.pass pass.now) KeepsPeaksInRange }
    ensures drift { AtEachMoment (P.pass pass.now) BoundsDrift }
    ensures system_drift { AtEachMoment (P.pass pass.now) BoundsSystemDrift }
    ensures by_marks { AtEachMoment (P.pass pass.now) BoundsByMarks }
    ensures laws { AtEachMoment (P.pass pass.now) KeepsLaws }
{
    pass.has_seen_legal();
}
