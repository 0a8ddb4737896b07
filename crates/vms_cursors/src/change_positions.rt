ghost use Rattle.std.specs.Prelude.{◌≡◌, IfSome, IsNone};
ghost use Rattle.vms_calls.specs.Common.{Diffs, IsCounter, Put, Shape};
ghost use Rattle.vms_cursors.specs.Changes.{change_at};
ghost use Rattle.vms_cursors.specs.declared.change_positions.ChangePosition.TheVariants.{Begun, Loaded, Found, Missed};
ghost use Rattle.vms_cursors.specs.declared.change_positions.ChangePosition.TheVariants.{Won, Added};
ghost use Rattle.vms_cursors.specs.Cursors.{GoesOn, IsDue, HasEnded, Stops};

use crate::Change;
use crate::amounts::amount;
use crate::readings::{
    added_in, added_to_item_in, group_in, list_in, missed_in, same_list, threshold_in,
};
use vms_base::{Diffs, Layout};
use vms_core::Step;
use vms_plans::DueStep;

/// Where a change stands: which of its steps were made, and what these told.
#[derive(Clone, Copy, Debug, PartialEq, Eq)]
pub enum ChangePosition {
    /// None.
    Begun,
    /// The threshold was loaded.
    Loaded(u32),
    /// The list of the group was loaded, after the threshold.
    Found(u32, Diffs),
    /// The exchange lost, under this threshold.
    Missed(u32),
    /// The exchange won, under this threshold with this list.
    Won(u32, Diffs),
    /// What the change carries was added to the global value.
    Added(u32, Diffs),
    /// All.
    Ended,
}

impl ChangePosition {
    /// The step that is due: none where the change has ended.
    pub fn due(self, change: &Change, layout: &Layout) -> Option<DueStep>
        requires { IsCounter layout.now change.now.counter.number }
        ensures due { IfSome result (λ due. IsDue (change_at layout.now change.now self) due) }
        ensures ended { IsNone result → HasEnded (change_at layout.now change.now self) (tt {0}) }
    {
        match self {
            ChangePosition::Begun => Some(DueStep::LoadsThreshold(layout.place_of(change.counter))),
            ChangePosition::Loaded(_) => Some(DueStep::LoadsGroup(
                change.cpu,
                layout.group(change.counter),
            )),
            ChangePosition::Found(t, list) => Some(DueStep::Exchanges(
                change.counter,
                list,
                t,
                change.delta,
                change.mode,
            )),
            ChangePosition::Missed(t) => Some(DueStep::ExchangesZeros(
                change.counter,
                t,
                change.delta,
                change.mode,
            )),
            ChangePosition::Won(t, list) => due_addition(change, t, &list),
            ChangePosition::Added(t, list) => Some(DueStep::Makes(Step::AddS(
                layout.item_of(change.counter),
                amount(change, t, &list),
            ))),
            ChangePosition::Ended => None,
        }
    }

    /// The position after a step: none where the step isn't the one that is due.
    #[inline(always)]
    pub fn next(self, change: &Change, layout: &Layout, step: Step) -> Option<ChangePosition>
        requires { IsCounter layout.now change.now.counter.number }
        ensures goes { IfSome result
            (λ later. GoesOn (change_at layout.now change.now self) step (change_at layout.now change.now later)) }
        ensures stops { IsNone result → Stops (change_at layout.now change.now self) step }
    {
        match self {
            ChangePosition::Begun => after_begun(change, layout, step),
            ChangePosition::Loaded(t) => after_loaded(change, layout, t, step),
            ChangePosition::Found(t, list) => after_found(change, layout, t, list, step),
            ChangePosition::Missed(t) => after_missed(change, layout, t, step),
            ChangePosition::Won(t, list) => after_won(change, layout, t, list, step),
            ChangePosition::Added(t, list) => after_added(change, layout, t, list, step),
            ChangePosition::Ended => None,
        }
    }
}

/// The addition to the global value, where the change carries something.
fn due_addition(change: &Change, t: u32, list: &Diffs) -> Option<DueStep>
    ensures due { (layout : Shape) → IfSome result (λ due. IsDue (change_at layout change.now (Won t list.now)) due) }
    ensures ended { (layout : Shape) → IsNone result →
        HasEnded (change_at layout change.now (Won t list.now)) (tt {0}) }
{
    let amount = amount(change, t, list);
    if amount == 0 {
        return None;
    }
    Some(DueStep::Makes(Step::AddG(change.counter, amount)))
}

fn after_begun(change: &Change, layout: &Layout, step: Step) -> Option<ChangePosition>
    ensures goes { IfSome result
        (λ later. GoesOn (change_at layout.now change.now Begun) step (change_at layout.now change.now later)) }
    ensures stops { IsNone result → Stops (change_at layout.now change.now Begun) step }
{
    match threshold_in(layout.place_of(change.counter), step) {
        Some(t) => Some(ChangePosition::Loaded(t)),
        None => None,
    }
}

fn after_loaded(change: &Change, layout: &Layout, t: u32, step: Step) -> Option<ChangePosition>
    requires { IsCounter layout.now change.now.counter.number }
    ensures goes { IfSome result
        (λ later. GoesOn (change_at layout.now change.now (Loaded t)) step (change_at layout.now change.now later)) }
    ensures stops { IsNone result → Stops (change_at layout.now change.now (Loaded t)) step }
{
    match group_in(change.cpu, layout.group(change.counter), step) {
        Some(list) => Some(ChangePosition::Found(t, list)),
        None => None,
    }
}

fn after_found(
    change: &Change,
    layout: &Layout,
    t: u32,
    list: Diffs,
    step: Step,
) -> Option<ChangePosition>
    requires { IsCounter layout.now change.now.counter.number }
    ensures goes { IfSome result (λ later. GoesOn (change_at layout.now change.now (Found t list)) step
        (change_at layout.now change.now later)) }
    ensures stops { IsNone result → Stops (change_at layout.now change.now (Found t list)) step }
{
    match list_in(change, t, step) {
        Some(put) if same_list(list, put) => Some(ChangePosition::Won(t, list)),
        Some(_) => None,
        None => after_loss(change, layout, t, list, step),
    }
}

/// The position after a step that is no exchange that won.
fn after_loss(
    change: &Change,
    layout: &Layout,
    t: u32,
    list: Diffs,
    step: Step,
) -> Option<ChangePosition>
    requires counter { IsCounter layout.now change.now.counter.number }
    requires no_put { (w : Diffs) → Put change.now.counter w t change.now.delta change.now.mode ≡ step → ⊥ }
    ensures goes { IfSome result (λ later. GoesOn (change_at layout.now change.now (Found t list)) step
        (change_at layout.now change.now later)) }
    ensures stops { IsNone result → Stops (change_at layout.now change.now (Found t list)) step }
{
    match missed_in(layout.group(change.counter), step) {
        Some(missed) if same_list(list, missed) => Some(ChangePosition::Missed(t)),
        _ => None,
    }
}

fn after_missed(change: &Change, layout: &Layout, t: u32, step: Step) -> Option<ChangePosition>
    ensures goes { IfSome result
        (λ later. GoesOn (change_at layout.now change.now (Missed t)) step (change_at layout.now change.now later)) }
    ensures stops { IsNone result → Stops (change_at layout.now change.now (Missed t)) step }
{
    match list_in(change, t, step) {
        Some(put) if same_list(Diffs::zeros(), put) => Some(ChangePosition::Won(t, put)),
        _ => None,
    }
}

fn after_won(
    change: &Change,
    layout: &Layout,
    t: u32,
    list: Diffs,
    step: Step,
) -> Option<ChangePosition>
    ensures goes { IfSome result
        (λ later. GoesOn (change_at layout.now change.now (Won t list)) step (change_at layout.now change.now later)) }
    ensures stops { IsNone result → Stops (change_at layout.now change.now (Won t list)) step }
{
    let carried = amount(change, t, &list);
    if carried == 0 {
        return None;
    }
    match added_in(change.counter, step) {
        Some(added) if added == carried => Some(ChangePosition::Added(t, list)),
        _ => None,
    }
}

fn after_added(
    change: &Change,
    layout: &Layout,
    t: u32,
    list: Diffs,
    step: Step,
) -> Option<ChangePosition>
    ensures goes { IfSome result (λ later. GoesOn (change_at layout.now change.now (Added t list)) step
        (change_at layout.now change.now later)) }
    ensures stops { IsNone result → Stops (change_at layout.now change.now (Added t list)) step }
{
    let carried = amount(change, t, &list);
    match added_to_item_in(layout.item_of(change.counter), step) {
        Some(added) if added == carried => Some(ChangePosition::Ended),
        _ => None,
    }
}
