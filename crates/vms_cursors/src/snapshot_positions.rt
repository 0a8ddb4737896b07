ghost use Rattle.std.specs.Prelude.{◌≡◌, ◌<◌, IfSome, IsNone, Some};
ghost use Rattle.vms_calls.specs.Common.{CounterId, IsCounter, Shape, Step};
ghost use Rattle.vms_cursors.specs.Cursors.{GoesOn, IsDue, HasEnded, Stops};
ghost use Rattle.vms_cursors.specs.Snapshots.{snapshot_answer, snapshot_at};
ghost use Rattle.vms_cursors.specs.StepReadings as told;
ghost use Rattle.vms_cursors.specs.declared.snapshot_positions.SnapshotPosition.TheVariants.{Begun, Looks, Online};

use crate::looked::{Looked, OnlineCpu};
use crate::readings::{group_in, state_in, value_in};
use vms_base::{CounterId, CpuId, CpuState, Layout};
use vms_core::Step;
use vms_plans::DueStep;

/// Where a snapshot stands: which of its steps were made, and what these told.
#[derive(Clone, Copy, Debug, PartialEq, Eq)]
pub enum SnapshotPosition {
    /// None.
    Begun,
    /// The value was loaded, and so many CPUs were looked at.
    Looks(Looked),
    /// After so many CPUs the next was found online.
    Online(OnlineCpu),
}

impl SnapshotPosition {
    /// The step that is due: none where the snapshot has ended.
    pub fn due(self, counter: CounterId, layout: &Layout) -> Option<DueStep>
        requires { IsCounter layout.now counter.number }
        ensures due { IfSome result (λ due. IsDue (snapshot_at layout.now counter self) due) }
        ensures ended { IsNone result → HasEnded (snapshot_at layout.now counter self) (snapshot_answer self) }
    {
        match self {
            SnapshotPosition::Begun => Some(DueStep::LoadsValue(counter)),
            SnapshotPosition::Looks(looked) => due_look(looked, layout),
            SnapshotPosition::Online(found) => Some(DueStep::LoadsGroup(
                found.looked.next_cpu(),
                layout.group(counter),
            )),
        }
    }

    /// The position after a step: none where the step isn't the one that is due.
    #[inline(always)]
    pub fn next(self, counter: CounterId, layout: &Layout, step: Step) -> Option<SnapshotPosition>
        requires { IsCounter layout.now counter.number }
        ensures goes { IfSome result
            (λ later. GoesOn (snapshot_at layout.now counter self) step (snapshot_at layout.now counter later)) }
        ensures stops { IsNone result → Stops (snapshot_at layout.now counter self) step }
    {
        match self {
            SnapshotPosition::Begun => after_begun(counter, step),
            SnapshotPosition::Looks(looked) => after_looks(looked, layout, step),
            SnapshotPosition::Online(found) => after_online(found, counter, layout, step),
        }
    }

    /// The answer in pages where the snapshot has ended, and else 0.
    pub(crate) fn pages(self) -> u64
        ensures { result ≡ snapshot_answer self }
    {
        match self {
            SnapshotPosition::Begun => 0,
            SnapshotPosition::Looks(looked) => looked.pages(),
            SnapshotPosition::Online(_) => 0,
        }
    }
}

/// The look at the next CPU, where there is one.
fn due_look(looked: Looked, layout: &Layout) -> Option<DueStep>
    ensures due { (k : CounterId) → IfSome result (λ due. IsDue (snapshot_at layout.now k (Looks looked)) due) }
    ensures ended { (k : CounterId) → IsNone result →
        HasEnded (snapshot_at layout.now k (Looks looked)) (snapshot_answer (Looks looked)) }
{
    if looked.cpus < layout.cpus() {
        return Some(DueStep::LoadsState(looked.next_cpu()));
    }
    None
}

fn after_begun(counter: CounterId, step: Step) -> Option<SnapshotPosition>
    ensures goes { (shape : Shape) → IfSome result
        (λ later. GoesOn (snapshot_at shape counter Begun) step (snapshot_at shape counter later)) }
    ensures stops { (shape : Shape) → IsNone result → Stops (snapshot_at shape counter Begun) step }
{
    match value_in(counter, step) {
        Some(value) => Some(SnapshotPosition::Looks(Looked::begin(value))),
        None => None,
    }
}

fn after_looks(looked: Looked, layout: &Layout, step: Step) -> Option<SnapshotPosition>
    ensures goes { (k : CounterId) → IfSome result
        (λ later. GoesOn (snapshot_at layout.now k (Looks looked)) step (snapshot_at layout.now k later)) }
    ensures stops { (k : CounterId) → IsNone result → Stops (snapshot_at layout.now k (Looks looked)) step }
{
    if looked.cpus >= layout.cpus() {
        return None;
    }
    match state_in(looked.next_cpu(), step) {
        Some(state) => Some(after_state(looked, state)),
        None => None,
    }
}

/// The position after the state of the next CPU was loaded.
fn after_state(looked: Looked, state: CpuState) -> SnapshotPosition
    requires { looked.cpus < 128 }
    ensures { (shape : Shape) (k : CounterId) (step : Step) → looked.cpus < shape.cpus →
        told.state_in looked.cpus step ≡ Some state →
        GoesOn (snapshot_at shape k (Looks looked)) step (snapshot_at shape k result) }
{
    match state {
        CpuState::Online => SnapshotPosition::Online(OnlineCpu { looked }),
        _ => SnapshotPosition::Looks(looked.pass()),
    }
}

fn after_online(
    found: OnlineCpu,
    counter: CounterId,
    layout: &Layout,
    step: Step,
) -> Option<SnapshotPosition>
    requires { IsCounter layout.now counter.number }
    ensures goes { IfSome result
        (λ later. GoesOn (snapshot_at layout.now counter (Online found)) step (snapshot_at layout.now counter later)) }
    ensures stops { IsNone result → Stops (snapshot_at layout.now counter (Online found)) step }
{
    match group_in(found.looked.next_cpu(), layout.group(counter), step) {
        Some(list) => Some(SnapshotPosition::Looks(
            found.looked.add(list.values[(counter.number % 8) as usize]),
        )),
        None => None,
    }
}
