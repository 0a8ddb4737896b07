ghost use Rattle.std.specs.Prelude.{◌≡◌, ◌≤◌, ℕ, IfSome, IsNone};
ghost use Rattle.vms_calls.specs.Common.{High, IsHeader, IsZone};
ghost use Rattle.vms_plans.specs.Common.{further_plan, ordered as verdict_of};
ghost use Rattle.vms_cursors.specs.Cursors.{GoesOn, IsDue, IsSame, Stops};
ghost use Rattle.vms_cursors.specs.Orders.{IsOrderEnded, IsOrderSettled, IsOrderWithin, blocks_from, counted_plan};
ghost use Rattle.vms_cursors.specs.Orders.{order_at};
ghost use Rattle.vms_cursors.specs.Turns.{IsTurnWithin};
ghost use Rattle.vms_cursors.specs.declared.order_positions.OrderPosition.TheVariants.{Counts, Tests};
ghost use Rattle.vms_cursors.specs.declared.turns.Turn.{Turn};

use crate::blocks::first_blocks;
use crate::{Blocks, SnapshotPosition, TestPosition, Turn};
use vms_base::{Header, PlaceId, WaterMark};
use vms_calc::limit;
use vms_calls::{OrderVerdict, Verdict};
use vms_core::Step;
use vms_plans::DueStep;

/// Where a test of a zone's `high` watermark for the order of a turn stands.
#[derive(Clone, Copy, Debug, PartialEq, Eq)]
pub enum OrderPosition {
    /// The watermark is tested.
    Tests(TestPosition),
    /// The watermark was tested with this verdict, no smaller blocks were found, and these are counted.
    Counts(Verdict, Blocks, SnapshotPosition),
    /// The test has ended.
    Ended(OrderVerdict),
}

impl OrderPosition {
    /// The position of the same plan at which a step is due, or the end.
    pub(crate) fn settled(self, turn: Turn, zone: PlaceId, header: &Header) -> OrderPosition
        requires header { IsHeader header.now }
        requires turn { IsTurnWithin header.now.layout turn }
        requires zone { IsZone header.now.layout zone.number }
        requires within { IsOrderWithin header.now.layout self }
        ensures same { IsSame (order_at header.now zone turn self) (order_at header.now zone turn result) }
        ensures settled { IsOrderSettled header.now zone turn result }
        ensures within { IsOrderWithin header.now.layout result }
    {
        match self {
            OrderPosition::Tests(at) => settled_test(at, turn, zone, header),
            OrderPosition::Counts(verdict, area, at) => {
                settled_count(verdict, area, at, turn, zone, header)
            }
            OrderPosition::Ended(_) => self,
        }
    }

    /// The step that is due at a settled position: none where the test has ended.
    pub(crate) fn due(self, turn: Turn, zone: PlaceId, header: &Header) -> Option<DueStep>
        requires header { IsHeader header.now }
        requires zone { IsZone header.now.layout zone.number }
        requires within { IsOrderWithin header.now.layout self }
        requires settled { IsOrderSettled header.now zone turn self }
        ensures due { IfSome result (λ due. IsDue (order_at header.now zone turn self) due) }
        ensures ended { IsNone result → IsOrderEnded self }
    {
        match self {
            OrderPosition::Tests(at) => at.due(&header.layout, zone),
            OrderPosition::Counts(_, area, at) => at.due(area.counter, &header.layout),
            OrderPosition::Ended(_) => None,
        }
    }

    /// The position after a step at a settled position: none where the step isn't the one that is due.
    pub(crate) fn next(
        self,
        turn: Turn,
        zone: PlaceId,
        header: &Header,
        step: Step,
    ) -> Option<OrderPosition>
        requires header { IsHeader header.now }
        requires zone { IsZone header.now.layout zone.number }
        requires within { IsOrderWithin header.now.layout self }
        requires settled { IsOrderSettled header.now zone turn self }
        ensures goes { IfSome result
            (λ later. GoesOn (order_at header.now zone turn self) step (order_at header.now zone turn later)) }
        ensures stops { IsNone result → Stops (order_at header.now zone turn self) step }
        ensures within { IfSome result (λ later. IsOrderWithin header.now.layout later) }
    {
        match self {
            OrderPosition::Tests(at) => match at.next(&header.layout, zone, step) {
                Some(later) => Some(OrderPosition::Tests(later)),
                None => None,
            },
            OrderPosition::Counts(verdict, area, at) => {
                match at.next(area.counter, &header.layout, step) {
                    Some(later) => Some(OrderPosition::Counts(verdict, area, later)),
                    None => None,
                }
            }
            OrderPosition::Ended(_) => None,
        }
    }
}

fn settled_test(at: TestPosition, turn: Turn, zone: PlaceId, header: &Header) -> OrderPosition
    requires header { IsHeader header.now }
    requires turn { IsTurnWithin header.now.layout turn }
    requires zone { IsZone header.now.layout zone.number }
    ensures same { IsSame (order_at header.now zone turn (Tests at)) (order_at header.now zone turn result) }
    ensures settled { IsOrderSettled header.now zone turn result }
    ensures within { IsOrderWithin header.now.layout result }
{
    match at.due(&header.layout, zone) {
        Some(_) => OrderPosition::Tests(at),
        None => {
            let verdict = at.verdict(zone, WaterMark::High, turn.most, header);
            after_test(verdict, turn, zone, header)
        }
    }
}

/// The position after the watermark test.
fn after_test(verdict: Verdict, turn: Turn, zone: PlaceId, header: &Header) -> OrderPosition
    requires header { IsHeader header.now }
    requires turn { IsTurnWithin header.now.layout turn }
    requires zone { IsZone header.now.layout zone.number }
    ensures same { IsSame (further_plan header.now zone High turn.most turn.order verdict)
        (order_at header.now zone turn result) }
    ensures settled { IsOrderSettled header.now zone turn result }
    ensures within { IsOrderWithin header.now.layout result }
{
    if turn.order == 0 {
        return OrderPosition::Ended(ordered(verdict, verdict.yes, None));
    }
    let limit = limit(header, zone, WaterMark::High, turn.most);
    if limit + ((1 << turn.order) - 1) < verdict.free {
        return sought(verdict, turn.order, zone, header);
    }
    OrderPosition::Ended(ordered(verdict, false, None))
}

/// The verdict for an order after this one of the watermark test.
fn ordered(verdict: Verdict, yes: bool, area: Option<u32>) -> OrderVerdict
    ensures { result ≡ verdict_of verdict yes area }
{
    OrderVerdict {
        yes,
        free: verdict.free,
        fast: verdict.fast,
        area,
    }
}

/// The position before a look for a block of an order or larger.
fn sought(verdict: Verdict, from: u32, zone: PlaceId, header: &Header) -> OrderPosition
    requires header { IsHeader header.now }
    requires zone { IsZone header.now.layout zone.number }
    requires least { 1 ≤ from }
    ensures same { (turn : Turn) →
        IsSame (blocks_from header.now zone verdict from) (order_at header.now zone turn result) }
    ensures settled { (turn : Turn) → IsOrderSettled header.now zone turn result }
    ensures within { IsOrderWithin header.now.layout result }
{
    match first_blocks(from, zone, header) {
        Some(area) => OrderPosition::Counts(verdict, area, SnapshotPosition::Begun),
        None => OrderPosition::Ended(ordered(verdict, false, None)),
    }
}

fn settled_count(
    verdict: Verdict,
    area: Blocks,
    at: SnapshotPosition,
    turn: Turn,
    zone: PlaceId,
    header: &Header,
) -> OrderPosition
    requires header { IsHeader header.now }
    requires zone { IsZone header.now.layout zone.number }
    requires within { IsOrderWithin header.now.layout (Counts verdict area at) }
    ensures same { IsSame (order_at header.now zone turn (Counts verdict area at))
        (order_at header.now zone turn result) }
    ensures settled { IsOrderSettled header.now zone turn result }
    ensures within { IsOrderWithin header.now.layout result }
{
    match at.due(area.counter, &header.layout) {
        Some(_) => OrderPosition::Counts(verdict, area, at),
        None => after_count(verdict, area, at.pages(), zone, header),
    }
}

/// The position after so many blocks were counted.
fn after_count(
    verdict: Verdict,
    area: Blocks,
    count: u64,
    zone: PlaceId,
    header: &Header,
) -> OrderPosition
    requires header { IsHeader header.now }
    requires zone { IsZone header.now.layout zone.number }
    requires order { area.order ≤ 10 }
    ensures same { (turn : Turn) → IsSame (counted_plan header.now zone verdict area.order count)
        (order_at header.now zone turn result) }
    ensures settled { (turn : Turn) → IsOrderSettled header.now zone turn result }
    ensures within { IsOrderWithin header.now.layout result }
{
    if count == 0 {
        return sought(verdict, area.order + 1, zone, header);
    }
    OrderPosition::Ended(ordered(verdict, true, Some(area.order)))
}
