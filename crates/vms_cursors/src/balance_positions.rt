ghost use Rattle.std.specs.Prelude.{◌≡◌, ◌+◌, ◌-◌, ◌≤◌, ◌<◌, ℕ, true, length, IfSome, IsNone};
ghost use Rattle.vms_calls.specs.Common.{IsHeader, IsZone, PlaceId};
ghost use Rattle.vms_cursors.specs.Balances.{IsBalanceEnded, IsBalanceSettled, IsBalanceWithin, balance_at, IsUnpassed};
ghost use Rattle.vms_cursors.specs.Balances.{judged_plan, tested_from, tests_from, tests_zone};
ghost use Rattle.vms_cursors.specs.Cursors.{GoesOn, IsDue, IsSame, Stops};
ghost use Rattle.vms_cursors.specs.Orders.{IsOrderSettled, IsOrderWithin};
ghost use Rattle.vms_cursors.specs.Turns.{IsTurnWithin};
ghost use Rattle.vms_cursors.specs.declared.balance_positions.BalancePosition.TheVariants.{Zone};

use crate::{OrderPosition, TestPosition, Turn};
use vms_base::{Header, PlaceId};
use vms_calc::is_up_to;
use vms_calls::{Balance, OrderVerdict};
use vms_core::Step;
use vms_plans::DueStep;

/// Where the balance test of a turn stands. Zones come in order.
#[derive(Clone, Copy, Debug, PartialEq, Eq)]
pub enum BalancePosition {
    /// No zone before this one passed, and it is tested.
    Zone(PlaceId, OrderPosition),
    /// The test has ended.
    Ended(Balance),
}

impl BalancePosition {
    /// The position before the first zone from this one on that a turn tests: the end where there is none.
    pub(crate) fn from(zone: u32, turn: Turn, header: &Header) -> BalancePosition
        requires header { IsHeader header.now }
        requires turn { IsTurnWithin header.now.layout turn }
        requires zone { zone ≤ length header.now.layout.zones }
        ensures same { IsSame (tests_from header.now turn zone) (balance_at header.now turn result) }
        ensures settled { IsBalanceSettled header.now turn result }
        ensures unpassed { IsUnpassed result }
        ensures within { IsBalanceWithin header.now.layout result }
    {
        let number = next_tested(zone, turn, header);
        if number < header.layout.zones().len() as u32 {
            return BalancePosition::Zone(
                PlaceId { number },
                OrderPosition::Tests(TestPosition::Begun),
            );
        }
        BalancePosition::Ended(Balance::No)
    }

    /// The position of the same plan at which a step is due, or the end.
    pub(crate) fn settled(self, turn: Turn, header: &Header) -> BalancePosition
        requires header { IsHeader header.now }
        requires turn { IsTurnWithin header.now.layout turn }
        requires within { IsBalanceWithin header.now.layout self }
        ensures same { IsSame (balance_at header.now turn self) (balance_at header.now turn result) }
        ensures settled { IsBalanceSettled header.now turn result }
        ensures within { IsBalanceWithin header.now.layout result }
    {
        match self {
            BalancePosition::Zone(zone, at) => settled_zone(zone, at, turn, header),
            BalancePosition::Ended(_) => self,
        }
    }

    /// The step that is due at a settled position: none where the balance test has ended.
    pub(crate) fn due(self, turn: Turn, header: &Header) -> Option<DueStep>
        requires header { IsHeader header.now }
        requires within { IsBalanceWithin header.now.layout self }
        requires settled { IsBalanceSettled header.now turn self }
        ensures due { IfSome result (λ due. IsDue (balance_at header.now turn self) due) }
        ensures ended { IsNone result → IsBalanceEnded self }
    {
        match self {
            BalancePosition::Zone(zone, at) => at.due(turn, zone, header),
            BalancePosition::Ended(_) => None,
        }
    }

    /// The position after a step at a settled position: none where the step isn't the one that is due.
    pub(crate) fn next(self, turn: Turn, header: &Header, step: Step) -> Option<BalancePosition>
        requires header { IsHeader header.now }
        requires within { IsBalanceWithin header.now.layout self }
        requires settled { IsBalanceSettled header.now turn self }
        ensures goes { IfSome result
            (λ later. GoesOn (balance_at header.now turn self) step (balance_at header.now turn later)) }
        ensures stops { IsNone result → Stops (balance_at header.now turn self) step }
        ensures within { IfSome result (λ later. IsBalanceWithin header.now.layout later) }
    {
        match self {
            BalancePosition::Zone(zone, at) => match at.next(turn, zone, header, step) {
                Some(later) => Some(BalancePosition::Zone(zone, later)),
                None => None,
            },
            BalancePosition::Ended(_) => None,
        }
    }
}

/// The first zone from this one on that a turn tests: the number of zones where there is none.
fn next_tested(from: u32, turn: Turn, header: &Header) -> u32
    requires header { IsHeader header.now }
    requires turn { IsTurnWithin header.now.layout turn }
    requires from { from ≤ length header.now.layout.zones }
    ensures same { tested_from header.now.layout turn from ≡ tested_from header.now.layout turn result }
    ensures some { result < length header.now.layout.zones → tests_zone header.now.layout turn result ≡ true }
    ensures most { result ≤ length header.now.layout.zones }
{
    let zones = header.layout.zones();
    let node = header.layout.nodes()[turn.node.number as usize - zones.len()];
    for zone in from..zones.len() as u32 {
        if is_up_to(zones[zone as usize], node, turn.most) {
            return zone;
        }
    }
    zones.len() as u32
}

fn settled_zone(zone: PlaceId, at: OrderPosition, turn: Turn, header: &Header) -> BalancePosition
    requires header { IsHeader header.now }
    requires turn { IsTurnWithin header.now.layout turn }
    requires within { IsBalanceWithin header.now.layout (Zone zone at) }
    ensures same { IsSame (balance_at header.now turn (Zone zone at)) (balance_at header.now turn result) }
    ensures settled { IsBalanceSettled header.now turn result }
    ensures within { IsBalanceWithin header.now.layout result }
{
    let settled = at.settled(turn, zone, header);
    match settled {
        OrderPosition::Ended(verdict) => after_zone(zone, verdict, turn, header),
        OrderPosition::Tests(_) => BalancePosition::Zone(zone, settled),
        OrderPosition::Counts(_, _, _) => BalancePosition::Zone(zone, settled),
    }
}

/// The position after a zone was tested with this verdict.
fn after_zone(zone: PlaceId, verdict: OrderVerdict, turn: Turn, header: &Header) -> BalancePosition
    requires header { IsHeader header.now }
    requires turn { IsTurnWithin header.now.layout turn }
    requires zone { IsZone header.now.layout zone.number }
    ensures same { IsSame (judged_plan header.now turn zone verdict) (balance_at header.now turn result) }
    ensures settled { IsBalanceSettled header.now turn result }
    ensures within { IsBalanceWithin header.now.layout result }
{
    if verdict.yes {
        return BalancePosition::Ended(Balance::Yes(zone, verdict));
    }
    BalancePosition::from(zone.number + 1, turn, header)
}
