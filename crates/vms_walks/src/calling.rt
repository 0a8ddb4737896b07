ghost use Rattle.std.specs.Prelude.{◌≡◌, ◌≤◌, IfSome, IsNone, Some, length, ℕ};
ghost use Rattle.vms_world.specs.Common.{Header, Shape, State, Act, owner_of, page_call};
ghost use Rattle.vms_core.specs.Pages.{History};
ghost use Rattle.vms_cursors.specs.Calls.{IsAffordable, IsCallWithin, IsWithin, cursor_at};
ghost use Rattle.vms_cursors.specs.Cursors.{IsSame};
ghost use Rattle.vms_plans.specs.Common.{plan_of};
ghost use Rattle.vms_walks.specs.Calling.{CallsNext, MakeNoCall};
ghost use Rattle.vms_walks.specs.Walks.{IsOfLane};

use vms_base::CpuId;
use vms_calls::{PageCall, ThresholdRules};
use vms_cursors::Cursor;
use vms_text::{Act, Lane};
use vms_world::page_call;

/// The first of these acts from one on that makes a call on the page counters, with its call.
pub(crate) fn calling(lane: Lane, acts: &[Act], from: usize) -> Option<(usize, PageCall)>
    requires { from ≤ length acts.now }
    ensures some { IfSome result (λ found. CallsNext lane acts.now from found.0 found.1) }
    ensures none { IsNone result → MakeNoCall lane acts.now from (length acts.now) }
{
    for at in from..acts.len() {
        match page_call(lane, acts[at]) {
            Some(call) => return Some((at, call)),
            None => {}
        }
    }
    None
}

/// The cursor at the beginning of the call of an act.
pub(crate) fn begin_call<R: ThresholdRules>(lane: Lane, call: PageCall) -> Cursor
    requires act { (act : Act) × (page_call lane act ≡ Some call) }
    requires affordable { IsAffordable call }
    ensures same { (header : Header) (base : State) (p : ℕ) (h : History) →
        IsSame (plan_of header base R.pressure R.normal call (owner_of lane) p h)
        (cursor_at header base p R.pressure R.normal h result) }
    ensures within { (shape : Shape) → IsCallWithin shape call → IsWithin shape result }
    ensures of_lane { IsOfLane lane result }
{
    let Some(cursor) = Cursor::begin::<R>(call, owner_of(lane)) else {
        unreachable!()
    };
    cursor
}

/// The CPU that the pass of a lane owns.
fn owner_of(lane: Lane) -> Option<CpuId>
    ensures { result ≡ owner_of lane }
{
    match lane {
        Lane::Cpu(cpu) => Some(cpu),
        Lane::Control => None,
    }
}
