ghost use Rattle.std.specs.Prelude.{ℕ, Bool, List};
ghost use Rattle.vms_history.specs.Common.{Header, CounterId, CpuId, ItemId, PlaceId, WaterMark, Shape, IsLayout};
ghost use Rattle.vms_core.specs.declared.states.State.{State};
ghost use Rattle.vms_core.specs.declared.steps.Facts.{Facts};
ghost use Rattle.vms_calls.specs.CallerLaws.{Leaves, CallsLeaveMeanwhile, ChangesLeaveMeanwhile};
ghost use Rattle.vms_calls.specs.Folds.{IsFold};
ghost use Rattle.vms_calls.specs.declared.answers.Verdict.{Verdict};
ghost use Rattle.vms_calls.specs.Looks.{IsPlaceValue, IsSystemValue, IsSnapshot, IsWatermarkTest};
ghost use Rattle.vms_calls.specs.MayCall.{KnowsByOwnSteps};
ghost use Rattle.vms_calls.specs.Ratings.{Refreshes, Buries, SetsPressure, SetsNormal};
ghost use Rattle.vms_calls.specs.declared.answers.OrderVerdict.{OrderVerdict};
ghost use Rattle.vms_calls.specs.declared.answers.Balance.{Balance};
ghost use Rattle.vms_calls.specs.Turns.{IsOrderTest, IsBalanceTest, IsTurn};

use crate::ThresholdRules;

/// After a call that looks at values or tests them its caller carries what it carried before, and no CPU has spent
/// more.
pub fn looks_leave_their_caller()
    ensures place_value { (shape : Shape) (k : CounterId) → Leaves shape
        (λ p h steps. (answer : ℕ) × IsPlaceValue k steps answer) }
    ensures system_value { (shape : Shape) (i : ItemId) → Leaves shape
        (λ p h steps. (answer : ℕ) × IsSystemValue i steps answer) }
    ensures snapshot { (shape : Shape) (k : CounterId) → Leaves shape
        (λ p h steps. (answer : ℕ) × IsSnapshot shape k steps answer) }
    ensures test { (header : Header) (g : PlaceId) (mark : WaterMark) (most : ℕ) →
        Leaves header.layout (λ p h steps. (answer : Verdict)
        × IsWatermarkTest header g mark most steps answer) }
    ensures order { (header : Header) (g : PlaceId) (mark : WaterMark) (most order : ℕ) →
        Leaves header.layout (λ p h steps. (answer : OrderVerdict)
        × IsOrderTest header g mark most order steps answer) }
    ensures balance { (header : Header) (n : PlaceId) (order most : ℕ) → Leaves header.layout
        (λ p h steps. (answer : Balance) × IsBalanceTest header n order most steps answer) }
{}

/// A fold moves all that it takes: its caller carries after it what it carried before, and no CPU has spent more.
pub fn folds_leave_their_caller()
    ensures { (shape : Shape) (is_own : Bool) (c : CpuId) → IsLayout shape → Leaves shape
        (λ p h steps. IsFold shape is_own c steps) }
{}

/// After a call that sets thresholds, a burial or a turn of kswapd its caller carries what it carried before, and no
/// CPU has spent more.
pub fn ratings_leave_their_caller<R: ThresholdRules>()
    ensures pressure { (facts : Facts) (n : PlaceId) → Leaves facts.layout
        (λ p h steps. SetsPressure facts R.pressure R.normal n p h steps) }
    ensures normal { (facts : Facts) (n : PlaceId) → Leaves facts.layout
        (λ p h steps. SetsNormal facts R.normal n p h steps) }
    ensures refresh { (facts : Facts) → Leaves facts.layout
        (λ p h steps. Refreshes facts R.normal p h steps) }
    ensures burial { (facts : Facts) (c : CpuId) → IsLayout facts.layout → Leaves facts.layout
        (λ p h steps. Buries facts R.normal c p h steps) }
    ensures turn { (header : Header) (base : State) (n : PlaceId) (order most : ℕ) →
        Leaves header.layout (λ p h steps. (answer : Balance)
        × IsTurn header base R.pressure R.normal n order most p h steps answer) }
{}

/// What a call leaves when others acted meanwhile: its caller carries what it carried before, and its CPU has spent no
/// more. After a change the CPU has spent the size of the change more.
pub fn made_calls_leave_their_caller()
    ensures call { CallsLeaveMeanwhile }
    ensures change { ChangesLeaveMeanwhile }
{}

/// The control pass knows peaks, thresholds, marks and the CPUs' states by its own steps alone, whatever others did
/// between them: so the sum of peaks that it computed still stands when it sets a mark and thresholds.
pub fn control_passes_know_by_own_steps()
    ensures { KnowsByOwnSteps }
{}
