ghost use Rattle.std.specs.Prelude.{◌≡◌, ℕ, IfSome, IsNone};
ghost use Rattle.vms_calls.specs.Common.{CpuId, Facts, History, IsLayout, Shape};
ghost use Rattle.vms_cursors.specs.BurialClauses.{BurialAnswers, BurialDue, BurialEnded, BurialGoes, BurialStops};
ghost use Rattle.vms_cursors.specs.BurialClauses.{IsBurialAsked};
ghost use Rattle.vms_cursors.specs.Burials.{IsBurialAnswered, IsBurialWithin, burial_at, fold_of};
ghost use Rattle.vms_cursors.specs.Cursors.{HasEnded, IsSame};
ghost use Rattle.vms_cursors.specs.Folds.{fold_at};
ghost use Rattle.vms_cursors.specs.declared.burial_positions.BurialPosition.TheVariants.{Folds, Rates};

use crate::readings::is_removal;
use crate::{Asked, Fold, FoldPosition, OnlineCpus, RatingCall, RatingPosition};
use vms_base::{CpuId, Layout};
use vms_calls::{Chosen, ThresholdRules};
use vms_core::Step;
use vms_plans::DueStep;

/// Where a burial stands.
#[derive(Clone, Copy, Debug, PartialEq, Eq)]
pub enum BurialPosition {
    /// The CPU is folded, and made absent after that.
    Folds(FoldPosition),
    /// The CPU is absent, and the thresholds are refreshed.
    Rates(RatingPosition),
}

impl BurialPosition {
    /// What the rules are asked for: none where no rule is asked.
    pub fn asks(self, layout: &Layout) -> Option<Asked>
        requires { IsLayout layout.now }
        ensures asked { IfSome result (λ asked. IsBurialAsked layout.now self asked) }
        ensures none { IsNone result → IsBurialAnswered self }
    {
        match self {
            BurialPosition::Folds(_) => None,
            BurialPosition::Rates(at) => at.asks(layout),
        }
    }

    /// The position after the rules chose these thresholds, with the mark that covers the zone then: the same position
    /// where no rule is asked.
    pub fn answer<R: ThresholdRules>(self, chosen: Chosen, mark: u64) -> BurialPosition
        ensures same { (facts : Facts) (p : ℕ) (c : CpuId) (h : History) →
            BurialAnswers facts p R.pressure R.normal h self chosen mark →
            IsSame (burial_at facts p R.pressure R.normal c h self)
            (burial_at facts p R.pressure R.normal c h result) }
        ensures answered { IsBurialAnswered result }
        ensures within { (shape : Shape) → IsBurialWithin shape self → IsBurialWithin shape result }
    {
        match self {
            BurialPosition::Folds(_) => self,
            BurialPosition::Rates(at) => BurialPosition::Rates(at.answer::<R>(chosen, mark)),
        }
    }

    /// The step that is due: none where the burial has ended.
    pub fn due<R: ThresholdRules>(self, cpu: CpuId, layout: &Layout) -> Option<DueStep>
        requires layout { IsLayout layout.now }
        requires within { IsBurialWithin layout.now self }
        requires answered { IsBurialAnswered self }
        ensures due { IfSome result (λ due. BurialDue layout.now R.pressure R.normal cpu self due) }
        ensures ended { IsNone result → BurialEnded layout.now R.pressure R.normal cpu self }
    {
        match self {
            BurialPosition::Folds(at) => Some(due_fold::<R>(at, cpu, layout)),
            BurialPosition::Rates(at) => at.due::<R>(RatingCall::Refresh, layout),
        }
    }

    /// The position after a step: none where the step isn't the one that is due.
    pub fn next<R: ThresholdRules>(
        self,
        cpu: CpuId,
        layout: &Layout,
        step: Step,
    ) -> Option<BurialPosition>
        requires layout { IsLayout layout.now }
        requires within { IsBurialWithin layout.now self }
        requires answered { IsBurialAnswered self }
        ensures goes { IfSome result (λ later. BurialGoes layout.now R.pressure R.normal cpu self step later) }
        ensures stops { IsNone result → BurialStops layout.now R.pressure R.normal cpu self step }
        ensures within { IfSome result (λ later. IsBurialWithin layout.now later) }
    {
        match self {
            BurialPosition::Folds(at) => after_fold::<R>(at, cpu, layout, step),
            BurialPosition::Rates(at) => after_rating::<R>(at, cpu, layout, step),
        }
    }
}

/// The fold of a burial.
fn burial_fold(cpu: CpuId) -> Fold
    ensures { result ≡ fold_of cpu }
{
    Fold { cpu, is_own: false }
}

fn due_fold<R: ThresholdRules>(at: FoldPosition, cpu: CpuId, layout: &Layout) -> DueStep
    requires layout { IsLayout layout.now }
    requires within { IsBurialWithin layout.now (Folds at) }
    ensures { BurialDue layout.now R.pressure R.normal cpu (Folds at) result }
{
    match at.due(burial_fold(cpu), layout) {
        Some(due) => due,
        None => DueStep::Makes(Step::SetO(cpu)),
    }
}

fn after_fold<R: ThresholdRules>(
    at: FoldPosition,
    cpu: CpuId,
    layout: &Layout,
    step: Step,
) -> Option<BurialPosition>
    requires layout { IsLayout layout.now }
    requires within { IsBurialWithin layout.now (Folds at) }
    ensures goes { IfSome result (λ later. BurialGoes layout.now R.pressure R.normal cpu (Folds at) step later) }
    ensures stops { IsNone result → BurialStops layout.now R.pressure R.normal cpu (Folds at) step }
    ensures within { IfSome result (λ later. IsBurialWithin layout.now later) }
{
    match at.due(burial_fold(cpu), layout) {
        Some(_) => after_folding::<R>(at, cpu, layout, step),
        None => after_removal::<R>(at, cpu, layout, step),
    }
}

/// The position after a step of the fold, which has not ended.
fn after_folding<R: ThresholdRules>(
    at: FoldPosition,
    cpu: CpuId,
    layout: &Layout,
    step: Step,
) -> Option<BurialPosition>
    requires layout { IsLayout layout.now }
    requires within { IsBurialWithin layout.now (Folds at) }
    requires unended { HasEnded (fold_at layout.now (fold_of cpu) at) (tt {0}) → ⊥ }
    ensures goes { IfSome result (λ later. BurialGoes layout.now R.pressure R.normal cpu (Folds at) step later) }
    ensures stops { IsNone result → BurialStops layout.now R.pressure R.normal cpu (Folds at) step }
    ensures within { IfSome result (λ later. IsBurialWithin layout.now later) }
{
    match at.next(burial_fold(cpu), layout, step) {
        Some(later) => Some(BurialPosition::Folds(later)),
        None => None,
    }
}

/// The position after the CPU was made absent, once it is folded.
fn after_removal<R: ThresholdRules>(
    at: FoldPosition,
    cpu: CpuId,
    layout: &Layout,
    step: Step,
) -> Option<BurialPosition>
    requires folded { HasEnded (fold_at layout.now (fold_of cpu) at) (tt {0}) }
    ensures goes { IfSome result (λ later. BurialGoes layout.now R.pressure R.normal cpu (Folds at) step later) }
    ensures stops { IsNone result → BurialStops layout.now R.pressure R.normal cpu (Folds at) step }
    ensures within { IfSome result (λ later. IsBurialWithin layout.now later) }
{
    if is_removal(cpu, step) {
        return Some(BurialPosition::Rates(RatingPosition::States(OnlineCpus::none(), 0)));
    }
    None
}

fn after_rating<R: ThresholdRules>(
    at: RatingPosition,
    cpu: CpuId,
    layout: &Layout,
    step: Step,
) -> Option<BurialPosition>
    requires layout { IsLayout layout.now }
    requires within { IsBurialWithin layout.now (Rates at) }
    requires answered { IsBurialAnswered (Rates at) }
    ensures goes { IfSome result (λ later. BurialGoes layout.now R.pressure R.normal cpu (Rates at) step later) }
    ensures stops { IsNone result → BurialStops layout.now R.pressure R.normal cpu (Rates at) step }
    ensures within { IfSome result (λ later. IsBurialWithin layout.now later) }
{
    match at.next::<R>(RatingCall::Refresh, layout, step) {
        Some(later) => Some(BurialPosition::Rates(later)),
        None => None,
    }
}
