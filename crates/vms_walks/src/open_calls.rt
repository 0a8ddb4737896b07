ghost use Rattle.std.specs.Prelude.{◌≡◌, ℕ, ◌≤◌, List, ◌∷◌, [], All, IfSome, IsNone, Some, length, take};
ghost use Rattle.vms_core.specs.Pages.{History, IsLegal};
ghost use Rattle.vms_cursors.specs.Calls.{IsReady, IsWithin};
ghost use Rattle.vms_world.specs.Common.{Act as ActOf, IsHeader, Lane as LaneOf, PageSteps, State, facts_of, own};
ghost use Rattle.vms_written.specs.Common.{GoesAlong};
ghost use Rattle.vms_own_acts.specs.Common.{IsHistoryFor, MakesInRow};
ghost use Rattle.vms_walks.specs.Walks.{IsDueAt, IsDueWithin, IsOfLane, IsPageAct, IsWalkWithin, StandsAt, StandsBy};

use crate::calling::{begin_call, calling};
use crate::settling::settle;
use crate::{Walk, ZonePeaks};
use vms_base::Header;
use vms_core::Step;
use vms_cursors::{Cursor, cursors_can_be_completed};
use vms_own_acts::RuleFunctions;
use vms_plans::{DueStep, plans_are_the_calls};
use vms_text::{Act, Lane};

/// A call of a lane that has begun and not ended, with the step that is due.
#[derive(Clone, Copy, Debug)]
pub struct DueCall {
    /// How many acts of the lane have begun, with that of the call.
    pub(crate) begun: usize,
    pub(crate) cursor: Cursor,
    pub(crate) due: DueStep,
}

impl DueCall {
    /// The step that is due.
    #[inline]
    pub fn step(&self) -> DueStep
        ensures { result ≡ self.now.due }
    {
        self.due
    }

    /// The walk after a step of the lane's pass: none where the pass's own events with this one don't begin the events
    /// of its lines.
    pub fn next<R: RuleFunctions>(&self, header: &Header, step: Step) -> Option<Walk>
        requires header { IsHeader header.now }
        requires within { (lane : LaneOf) × (acts : List ActOf) × IsDueWithin header.now.layout lane acts self.now }
        ensures goes { (base : State) (lane : LaneOf) (p : ℕ) (acts : List ActOf) (h : History) →
            IsHistoryFor header.now base lane p (record { caller = p; step = step } ∷ h) →
            IsDueAt header.now base R.pressure R.normal lane p acts self.now (own h p) →
            IfSome result (λ later. StandsAt header.now base R.pressure R.normal lane p acts later
            (record { caller = p; step = step } ∷ h)) }
        ensures stops { (base : State) (lane : LaneOf) (p : ℕ) (acts : List ActOf) (h : History) →
            IsHistoryFor header.now base lane p (record { caller = p; step = step } ∷ h) →
            IsDueAt header.now base R.pressure R.normal lane p acts self.now (own h p) → IsNone result →
            ¬ GoesAlong (PageSteps header.now base R.pressure R.normal lane p) p acts
            (record { caller = p; step = step } ∷ h) }
        ensures within { (lane : LaneOf) (acts : List ActOf) → IsDueWithin header.now.layout lane acts self.now →
            IfSome result (IsWalkWithin header.now.layout lane acts) }
    {
        plans_are_the_calls::<R>();
        cursors_can_be_completed::<R>();
        match self.cursor.next::<R>(header, step) {
            Some(cursor) => Some(Walk {
                begun: self.begun,
                has_stepped: true,
                cursor,
            }),
            None => None,
        }
    }
}

/// The next call of these acts from one on, at its beginning: none where they make no call.
pub(crate) fn next_call<R: RuleFunctions, K: ZonePeaks>(
    header: &Header,
    peaks: &K,
    lane: Lane,
    acts: &[Act],
    from: usize,
) -> Option<DueCall>
    requires header { IsHeader header.now }
    requires acts { All (λ act. IsPageAct header.now.layout lane act) acts.now }
    requires from { from ≤ length acts.now }
    requires kept { (base : State) × (h : History) × IsLegal (facts_of header.now base) h
        × K.Keeps peaks.now (facts_of header.now base) h }
    ensures some { (base : State) (p : ℕ) (h : History) → IsHistoryFor header.now base lane p h →
        K.Keeps peaks.now (facts_of header.now base) h →
        MakesInRow (PageSteps header.now base R.pressure R.normal lane p) p (take from acts.now) [] (own h p) →
        IfSome result (λ call. IsDueAt header.now base R.pressure R.normal lane p acts.now call (own h p)) }
    ensures none { (base : State) (p : ℕ) (h : History) → IsHistoryFor header.now base lane p h →
        K.Keeps peaks.now (facts_of header.now base) h →
        MakesInRow (PageSteps header.now base R.pressure R.normal lane p) p (take from acts.now) [] (own h p) →
        IsNone result → MakesInRow (PageSteps header.now base R.pressure R.normal lane p) p acts.now [] (own h p) }
    ensures within { IfSome result (λ call. IsDueWithin header.now.layout lane acts.now call) }
{
    plans_are_the_calls::<R>();
    match calling(lane, acts, from) {
        Some((at, call)) => {
            let mut cursor = begin_call::<R>(lane, call);
            settle::<R, K>(&mut cursor, header, peaks);
            match cursor.due::<R>(header) {
                Some(due) => Some(DueCall {
                    begun: at + 1,
                    cursor,
                    due,
                }),
                None => None,
            }
        }
        None => None,
    }
}

/// The call that is under way, if it hasn't ended, or else the next one.
pub(crate) fn due_call<R: RuleFunctions, K: ZonePeaks>(
    header: &Header,
    peaks: &K,
    lane: Lane,
    acts: &[Act],
    begun: usize,
    cursor: Cursor,
) -> Option<DueCall>
    requires header { IsHeader header.now }
    requires acts { All (λ act. IsPageAct header.now.layout lane act) acts.now }
    requires begun { begun ≤ length acts.now }
    requires of_lane { IsOfLane lane cursor }
    requires within { IsWithin header.now.layout cursor }
    requires ready { IsReady cursor }
    requires kept { (base : State) × (h : History) × IsLegal (facts_of header.now base) h
        × K.Keeps peaks.now (facts_of header.now base) h }
    ensures some { (base : State) (p : ℕ) (h : History) → IsHistoryFor header.now base lane p h →
        K.Keeps peaks.now (facts_of header.now base) h →
        StandsBy header.now base R.pressure R.normal lane p acts.now begun (Some cursor) (own h p) →
        IfSome result (λ due. IsDueAt header.now base R.pressure R.normal lane p acts.now due (own h p)) }
    ensures none { (base : State) (p : ℕ) (h : History) → IsHistoryFor header.now base lane p h →
        K.Keeps peaks.now (facts_of header.now base) h →
        StandsBy header.now base R.pressure R.normal lane p acts.now begun (Some cursor) (own h p) →
        IsNone result → MakesInRow (PageSteps header.now base R.pressure R.normal lane p) p acts.now [] (own h p) }
    ensures within { IfSome result (λ due. IsDueWithin header.now.layout lane acts.now due) }
{
    match cursor.due::<R>(header) {
        Some(due) => Some(DueCall { begun, cursor, due }),
        None => next_call::<R, K>(header, peaks, lane, acts, begun),
    }
}
