ghost use Rattle.std.specs.Prelude.{◌≡◌, ℕ, ◌↔◌, false, List, [], ◌∷◌, All, IfSome, IsNone, IsTrue, Some, take};
ghost use Rattle.vms_core.specs.Pages.{History, IsLegal};
ghost use Rattle.vms_plans.specs.Common.{Fits};
ghost use Rattle.vms_world.specs.Common.{Act, Header, IsHeader, Lane, MakesActs, PageSteps, Shape, State, Step};
ghost use Rattle.vms_world.specs.Common.{facts_of, own};
ghost use Rattle.vms_written.specs.Common.{GoesAlong};
ghost use Rattle.vms_own_acts.specs.Common.{IsHistoryFor, MakesInRow};
ghost use Rattle.vms_walks.specs.Walks.{IsDueAt, IsDueWithin, IsPageAct, IsWalkWithin, StandsAt, under_way_of};

use crate::ZonePeaks;
use crate::calling::{begin_call, calling};
use crate::ended_calls::has_ended;
use crate::open_calls::{DueCall, due_call, next_call};
use crate::settling::settle;
use vms_base::{CounterId, Header};
use vms_calls::ThresholdRules;
use vms_core::Step;
use vms_cursor_steps::go_on;
use vms_cursors::{Cursor, LoadPosition, cursors_can_be_completed};
use vms_own_acts::RuleFunctions;
use vms_plans::{DueStep, plans_are_the_calls};
use vms_text::{Act, Lane};

/// Where a lane's pass stands in the acts of its lines, on the page counters of one phase. Acts that make no call on
/// the page counters are passed over.
#[derive(Clone, Copy, Debug, PartialEq, Eq)]
pub struct Walk {
    /// How many acts of the lane have begun, those that were passed over too.
    pub(crate) begun: usize,
    /// Whether the pass has made a step.
    pub(crate) has_stepped: bool,
    /// The call of the last act that has begun, which may have ended: any where the pass has made no step.
    pub(crate) cursor: Cursor,
}

impl Walk {
    /// Before the first act.
    pub fn begin<R: ThresholdRules>() -> Walk
        ensures stands { (header : Header) (base : State) (lane : Lane) (p : ℕ) (acts : List Act) (h : History) →
            own h p ≡ [] → StandsAt header base R.pressure R.normal lane p acts result h }
        ensures within { (shape : Shape) (lane : Lane) (acts : List Act) → IsWalkWithin shape lane acts result }
    {
        Walk {
            begun: 0,
            has_stepped: false,
            cursor: Cursor::Value(CounterId { number: 0 }, LoadPosition::Begun),
        }
    }

    /// The call under way, which may have ended: none where the pass has made no step.
    fn under_way(&self) -> Option<Cursor>
        ensures { result ≡ under_way_of self.now }
    {
        if self.has_stepped {
            Some(self.cursor)
        } else {
            None
        }
    }

    /// Goes on by a step of the lane's pass, in place: whether the pass's own events with this one begin the events of
    /// its lines. Where they don't, nothing changes.
    pub fn go<R: RuleFunctions, K: ZonePeaks>(
        &mut self,
        header: &Header,
        peaks: &K,
        lane: Lane,
        acts: &[Act],
        step: &Step,
    ) -> bool
        requires header { IsHeader header.now }
        requires acts { All (λ act. IsPageAct header.now.layout lane act) acts.now }
        requires within { IsWalkWithin header.now.layout lane acts.now self.old }
        requires kept { (base : State) × (h : History) × IsLegal (facts_of header.now base) h
            × K.Keeps peaks.now (facts_of header.now base) h }
        ensures goes { IsTrue result → (base : State) (p : ℕ) (h : History) →
            IsHistoryFor header.now base lane p (record { caller = p; step = step.now } ∷ h) →
            K.Keeps peaks.now (facts_of header.now base) h →
            StandsAt header.now base R.pressure R.normal lane p acts.now self.old h →
            StandsAt header.now base R.pressure R.normal lane p acts.now self.new
            (record { caller = p; step = step.now } ∷ h) }
        ensures stops { result ≡ false → (base : State) (p : ℕ) (h : History) →
            IsHistoryFor header.now base lane p (record { caller = p; step = step.now } ∷ h) →
            K.Keeps peaks.now (facts_of header.now base) h →
            StandsAt header.now base R.pressure R.normal lane p acts.now self.old h →
            ¬ GoesAlong (PageSteps header.now base R.pressure R.normal lane p) p acts.now
            (record { caller = p; step = step.now } ∷ h) }
        ensures same { result ≡ false → self.new ≡ self.old }
        ensures within { IsWalkWithin header.now.layout lane acts.now self.new }
    {
        if self.go_under_way::<R>(header, lane, acts, step) {
            return true;
        }
        if self.go_to_next::<R>(header, lane, acts, step) {
            return true;
        }
        if self.go_settled::<R, K>(header, peaks, lane, acts, step) {
            return true;
        }
        match self.next_of_due::<R, K>(header, peaks, lane, acts, *step) {
            Some(later) => {
                *self = later;
                true
            }
            None => false,
        }
    }

    /// Goes on by a step of the call under way, where it does so in place: whether it went on. Where it didn't, nothing
    /// changes.
    fn go_under_way<R: RuleFunctions>(
        &mut self,
        header: &Header,
        lane: Lane,
        acts: &[Act],
        step: &Step,
    ) -> bool
        requires header { IsHeader header.now }
        requires within { IsWalkWithin header.now.layout lane acts.now self.old }
        ensures goes { IsTrue result → (base : State) (p : ℕ) (h : History) →
            StandsAt header.now base R.pressure R.normal lane p acts.now self.old h →
            StandsAt header.now base R.pressure R.normal lane p acts.now self.new
            (record { caller = p; step = step.now } ∷ h) }
        ensures same { result ≡ false → self.new ≡ self.old }
        ensures within { IsWalkWithin header.now.layout lane acts.now self.new }
    {
        plans_are_the_calls::<R>();
        if !self.has_stepped {
            return false;
        }
        go_on::<R>(&mut self.cursor, header, step)
    }

    /// Goes on by the first step of the next call, where the acts that have begun are surely made and it does so in
    /// place: whether it went on. Where it didn't, nothing changes.
    fn go_to_next<R: RuleFunctions>(
        &mut self,
        header: &Header,
        lane: Lane,
        acts: &[Act],
        step: &Step,
    ) -> bool
        requires header { IsHeader header.now }
        requires acts { All (λ act. IsPageAct header.now.layout lane act) acts.now }
        requires within { IsWalkWithin header.now.layout lane acts.now self.old }
        ensures goes { IsTrue result → (base : State) (p : ℕ) (h : History) →
            StandsAt header.now base R.pressure R.normal lane p acts.now self.old h →
            StandsAt header.now base R.pressure R.normal lane p acts.now self.new
            (record { caller = p; step = step.now } ∷ h) }
        ensures same { result ≡ false → self.new ≡ self.old }
        ensures within { IsWalkWithin header.now.layout lane acts.now self.new }
    {
        plans_are_the_calls::<R>();
        if !self.is_between_calls::<R>(header) {
            return false;
        }
        let Some((at, call)) = calling(lane, acts, self.begun) else {
            return false;
        };
        let mut cursor = begin_call::<R>(lane, call);
        if !go_on::<R>(&mut cursor, header, step) {
            return false;
        }
        self.begun = at + 1;
        self.has_stepped = true;
        self.cursor = cursor;
        true
    }

    /// Whether the acts that have begun are surely made: no step was made, or the call under way has surely ended.
    fn is_between_calls<R: RuleFunctions>(&self, header: &Header) -> bool
        requires header { IsHeader header.now }
        requires within { (lane : Lane) × (acts : List Act) × IsWalkWithin header.now.layout lane acts self.now }
        ensures { IsTrue result → (base : State) (lane : Lane) (p : ℕ) (acts : List Act) (h : History) →
            StandsAt header.now base R.pressure R.normal lane p acts self.now h →
            MakesInRow (PageSteps header.now base R.pressure R.normal lane p) p (take self.now.begun acts) []
            (own h p) }
    {
        !self.has_stepped || has_ended::<R>(&self.cursor, header)
    }

    /// Goes on by a step of the call under way once the rules have answered, if they are asked: whether it went on.
    /// Where it didn't, nothing changes.
    fn go_settled<R: RuleFunctions, K: ZonePeaks>(
        &mut self,
        header: &Header,
        peaks: &K,
        lane: Lane,
        acts: &[Act],
        step: &Step,
    ) -> bool
        requires header { IsHeader header.now }
        requires within { IsWalkWithin header.now.layout lane acts.now self.old }
        requires kept { (base : State) × (h : History) × IsLegal (facts_of header.now base) h
            × K.Keeps peaks.now (facts_of header.now base) h }
        ensures goes { IsTrue result → (base : State) (p : ℕ) (h : History) →
            IsHistoryFor header.now base lane p (record { caller = p; step = step.now } ∷ h) →
            K.Keeps peaks.now (facts_of header.now base) h →
            StandsAt header.now base R.pressure R.normal lane p acts.now self.old h →
            StandsAt header.now base R.pressure R.normal lane p acts.now self.new
            (record { caller = p; step = step.now } ∷ h) }
        ensures same { result ≡ false → self.new ≡ self.old }
        ensures within { IsWalkWithin header.now.layout lane acts.now self.new }
    {
        plans_are_the_calls::<R>();
        if !self.has_stepped {
            return false;
        }
        let mut cursor = self.cursor;
        settle::<R, K>(&mut cursor, header, peaks);
        match cursor.next::<R>(header, *step) {
            Some(later) => {
                self.cursor = later;
                true
            }
            None => false,
        }
    }

    /// The call whose step is due: none where all acts are made.
    pub fn due_call<R: RuleFunctions, K: ZonePeaks>(
        &self,
        header: &Header,
        peaks: &K,
        lane: Lane,
        acts: &[Act],
    ) -> Option<DueCall>
        requires header { IsHeader header.now }
        requires acts { All (λ act. IsPageAct header.now.layout lane act) acts.now }
        requires within { IsWalkWithin header.now.layout lane acts.now self.now }
        requires kept { (base : State) × (h : History) × IsLegal (facts_of header.now base) h
            × K.Keeps peaks.now (facts_of header.now base) h }
        ensures some { (base : State) (p : ℕ) (h : History) → IsHistoryFor header.now base lane p h →
            K.Keeps peaks.now (facts_of header.now base) h →
            StandsAt header.now base R.pressure R.normal lane p acts.now self.now h → IfSome result
            (λ call. IsDueAt header.now base R.pressure R.normal lane p acts.now call (own h p)) }
        ensures none { (base : State) (p : ℕ) (h : History) → IsHistoryFor header.now base lane p h →
            K.Keeps peaks.now (facts_of header.now base) h →
            StandsAt header.now base R.pressure R.normal lane p acts.now self.now h → IsNone result →
            MakesActs (PageSteps header.now base R.pressure R.normal lane p) p acts.now h }
        ensures within { IfSome result (λ call. IsDueWithin header.now.layout lane acts.now call) }
    {
        match self.under_way() {
            Some(mut cursor) => {
                settle::<R, K>(&mut cursor, header, peaks);
                due_call::<R, K>(header, peaks, lane, acts, self.begun, cursor)
            }
            None => next_call::<R, K>(header, peaks, lane, acts, self.begun),
        }
    }

    /// The step that is due: none where all acts are made.
    pub fn due<R: RuleFunctions, K: ZonePeaks>(
        &self,
        header: &Header,
        peaks: &K,
        lane: Lane,
        acts: &[Act],
    ) -> Option<DueStep>
        requires header { IsHeader header.now }
        requires acts { All (λ act. IsPageAct header.now.layout lane act) acts.now }
        requires within { IsWalkWithin header.now.layout lane acts.now self.now }
        requires kept { (base : State) × (h : History) × IsLegal (facts_of header.now base) h
            × K.Keeps peaks.now (facts_of header.now base) h }
        ensures due { (base : State) (p : ℕ) (h : History) → IsHistoryFor header.now base lane p h →
            K.Keeps peaks.now (facts_of header.now base) h →
            StandsAt header.now base R.pressure R.normal lane p acts.now self.now h → IfSome result (λ due.
            (step : Step) → IsHistoryFor header.now base lane p (record { caller = p; step = step } ∷ h) →
            GoesAlong (PageSteps header.now base R.pressure R.normal lane p) p acts.now
            (record { caller = p; step = step } ∷ h) → Fits due step) }
        ensures done { (base : State) (p : ℕ) (h : History) → IsHistoryFor header.now base lane p h →
            K.Keeps peaks.now (facts_of header.now base) h →
            StandsAt header.now base R.pressure R.normal lane p acts.now self.now h →
            IsNone result ↔ MakesActs (PageSteps header.now base R.pressure R.normal lane p) p acts.now h }
    {
        plans_are_the_calls::<R>();
        cursors_can_be_completed::<R>();
        match self.due_call::<R, K>(header, peaks, lane, acts) {
            Some(call) => Some(call.due),
            None => None,
        }
    }

    /// Whether the pass has made all acts.
    pub fn is_done<R: RuleFunctions, K: ZonePeaks>(
        &self,
        header: &Header,
        peaks: &K,
        lane: Lane,
        acts: &[Act],
    ) -> bool
        requires header { IsHeader header.now }
        requires acts { All (λ act. IsPageAct header.now.layout lane act) acts.now }
        requires within { IsWalkWithin header.now.layout lane acts.now self.now }
        requires kept { (base : State) × (h : History) × IsLegal (facts_of header.now base) h
            × K.Keeps peaks.now (facts_of header.now base) h }
        ensures { (base : State) (p : ℕ) (h : History) → IsHistoryFor header.now base lane p h →
            K.Keeps peaks.now (facts_of header.now base) h →
            StandsAt header.now base R.pressure R.normal lane p acts.now self.now h →
            IsTrue result ↔ MakesActs (PageSteps header.now base R.pressure R.normal lane p) p acts.now h }
    {
        self.due::<R, K>(header, peaks, lane, acts).is_none()
    }

    /// The walk after a step of the call whose step is due, which may be the next call.
    fn next_of_due<R: RuleFunctions, K: ZonePeaks>(
        &self,
        header: &Header,
        peaks: &K,
        lane: Lane,
        acts: &[Act],
        step: Step,
    ) -> Option<Walk>
        requires header { IsHeader header.now }
        requires acts { All (λ act. IsPageAct header.now.layout lane act) acts.now }
        requires within { IsWalkWithin header.now.layout lane acts.now self.now }
        requires kept { (base : State) × (h : History) × IsLegal (facts_of header.now base) h
            × K.Keeps peaks.now (facts_of header.now base) h }
        ensures goes { (base : State) (p : ℕ) (h : History) →
            IsHistoryFor header.now base lane p (record { caller = p; step = step } ∷ h) →
            K.Keeps peaks.now (facts_of header.now base) h →
            StandsAt header.now base R.pressure R.normal lane p acts.now self.now h →
            IfSome result (λ later. StandsAt header.now base R.pressure R.normal lane p acts.now later
            (record { caller = p; step = step } ∷ h)) }
        ensures stops { (base : State) (p : ℕ) (h : History) →
            IsHistoryFor header.now base lane p (record { caller = p; step = step } ∷ h) →
            K.Keeps peaks.now (facts_of header.now base) h →
            StandsAt header.now base R.pressure R.normal lane p acts.now self.now h → IsNone result →
            ¬ GoesAlong (PageSteps header.now base R.pressure R.normal lane p) p acts.now
            (record { caller = p; step = step } ∷ h) }
        ensures within { IfSome result (λ later. IsWalkWithin header.now.layout lane acts.now later) }
    {
        plans_are_the_calls::<R>();
        match self.due_call::<R, K>(header, peaks, lane, acts) {
            Some(call) => call.next::<R>(header, step),
            None => None,
        }
    }
}
