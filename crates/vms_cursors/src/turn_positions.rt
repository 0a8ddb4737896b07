ghost use Rattle.std.specs.Prelude.{◌≡◌, ℕ, IfSome, IsNone};
ghost use Rattle.vms_calls.specs.Common.{Header, History, IsHeader, IsLayout, Shape, State};
ghost use Rattle.vms_cursors.specs.Balances.{IsBalanceSettled, IsBalanceWithin};
ghost use Rattle.vms_cursors.specs.Cursors.{IsSame};
ghost use Rattle.vms_cursors.specs.TurnClauses.{IsTurnAsked, IsTurnSettled, TurnAnswers, TurnDue, TurnEnded, TurnGoes};
ghost use Rattle.vms_cursors.specs.TurnClauses.{TurnSame, TurnStops};
ghost use Rattle.vms_cursors.specs.Turns.{IsTurnAnswered, IsTurnPositionWithin, IsTurnWithin, turn_at};
ghost use Rattle.vms_cursors.specs.declared.balance_positions.BalancePosition.TheVariants.{Ended};
ghost use Rattle.vms_cursors.specs.declared.turn_positions.TurnPosition.TheVariants.{Presses, Settles, Tests};
ghost use Rattle.vms_cursors.specs.declared.turns.Turn.{Turn};

use crate::{Asked, BalancePosition, OnlineCpus, RatingCall, RatingPosition, Turn};
use vms_base::{Header, Layout, PlaceId};
use vms_calls::{Balance, Chosen, OrderVerdict, ThresholdRules};
use vms_core::Step;
use vms_plans::DueStep;

/// Where a turn of kswapd stands.
#[derive(Clone, Copy, Debug, PartialEq, Eq)]
pub enum TurnPosition {
    /// The zones of the node get thresholds under pressure.
    Presses(RatingPosition),
    /// They have got them, and the node is tested.
    Tests(BalancePosition),
    /// The zone passed with this verdict, and the zones of the node get normal thresholds.
    Settles(PlaceId, OrderVerdict, RatingPosition),
}

impl TurnPosition {
    /// What the rules are asked for: none where no rule is asked.
    pub fn asks(self, layout: &Layout) -> Option<Asked>
        requires { IsLayout layout.now }
        ensures asked { IfSome result (λ asked. IsTurnAsked layout.now self asked) }
        ensures none { IsNone result → IsTurnAnswered self }
    {
        match self {
            TurnPosition::Presses(at) => at.asks(layout),
            TurnPosition::Settles(_, _, at) => at.asks(layout),
            TurnPosition::Tests(_) => None,
        }
    }

    /// The position after the rules chose these thresholds, with the mark that covers the zone then: the same position
    /// where no rule is asked.
    pub fn answer<R: ThresholdRules>(self, chosen: Chosen, mark: u64) -> TurnPosition
        ensures same { (header : Header) (base : State) (p : ℕ) (turn : Turn) (h : History) →
            TurnAnswers header base p R.pressure R.normal turn h self chosen mark →
            IsSame (turn_at header base p R.pressure R.normal turn h self)
            (turn_at header base p R.pressure R.normal turn h result) }
        ensures answered { IsTurnAnswered result }
        ensures within { (shape : Shape) → IsTurnPositionWithin shape self → IsTurnPositionWithin shape result }
    {
        match self {
            TurnPosition::Presses(at) => TurnPosition::Presses(at.answer::<R>(chosen, mark)),
            TurnPosition::Settles(zone, verdict, at) => {
                TurnPosition::Settles(zone, verdict, at.answer::<R>(chosen, mark))
            }
            TurnPosition::Tests(_) => self,
        }
    }

    /// The step that is due: none where the turn has ended.
    pub fn due<R: ThresholdRules>(self, turn: Turn, header: &Header) -> Option<DueStep>
        requires header { IsHeader header.now }
        requires turn { IsTurnWithin header.now.layout turn }
        requires within { IsTurnPositionWithin header.now.layout self }
        requires answered { IsTurnAnswered self }
        ensures due { IfSome result (λ due. TurnDue header.now R.pressure R.normal turn self due) }
        ensures ended { IsNone result → TurnEnded header.now R.pressure R.normal turn self }
    {
        settled_due::<R>(self.settled::<R>(turn, header), turn, header)
    }

    /// The position after a step: none where the step isn't the one that is due.
    pub fn next<R: ThresholdRules>(
        self,
        turn: Turn,
        header: &Header,
        step: Step,
    ) -> Option<TurnPosition>
        requires header { IsHeader header.now }
        requires turn { IsTurnWithin header.now.layout turn }
        requires within { IsTurnPositionWithin header.now.layout self }
        requires answered { IsTurnAnswered self }
        ensures goes { IfSome result (λ later. TurnGoes header.now R.pressure R.normal turn self step later) }
        ensures stops { IsNone result → TurnStops header.now R.pressure R.normal turn self step }
        ensures within { IfSome result (λ later. IsTurnPositionWithin header.now.layout later) }
    {
        settled_next::<R>(self.settled::<R>(turn, header), turn, header, step)
    }

    /// The position of the same plan at which a step is due, or the end.
    fn settled<R: ThresholdRules>(self, turn: Turn, header: &Header) -> TurnPosition
        requires header { IsHeader header.now }
        requires turn { IsTurnWithin header.now.layout turn }
        requires within { IsTurnPositionWithin header.now.layout self }
        requires answered { IsTurnAnswered self }
        ensures same { TurnSame header.now R.pressure R.normal turn self result }
        ensures settled { IsTurnSettled header.now R.pressure R.normal turn result }
        ensures ended { TurnEnded header.now R.pressure R.normal turn result →
            TurnEnded header.now R.pressure R.normal turn self }
        ensures within { IsTurnPositionWithin header.now.layout result }
        ensures answered { IsTurnAnswered result }
    {
        match self {
            TurnPosition::Presses(at) => settled_pressure::<R>(at, turn, header),
            TurnPosition::Tests(at) => settled_test::<R>(at, turn, header),
            TurnPosition::Settles(_, _, _) => self,
        }
    }
}

fn settled_pressure<R: ThresholdRules>(
    at: RatingPosition,
    turn: Turn,
    header: &Header,
) -> TurnPosition
    requires header { IsHeader header.now }
    requires turn { IsTurnWithin header.now.layout turn }
    requires within { IsTurnPositionWithin header.now.layout (Presses at) }
    requires answered { IsTurnAnswered (Presses at) }
    ensures same { TurnSame header.now R.pressure R.normal turn (Presses at) result }
    ensures settled { IsTurnSettled header.now R.pressure R.normal turn result }
    ensures ended { TurnEnded header.now R.pressure R.normal turn result →
        TurnEnded header.now R.pressure R.normal turn (Presses at) }
    ensures within { IsTurnPositionWithin header.now.layout result }
    ensures answered { IsTurnAnswered result }
{
    match at.due::<R>(RatingCall::Pressure(turn.node), &header.layout) {
        Some(_) => TurnPosition::Presses(at),
        None => TurnPosition::Tests(BalancePosition::from(0, turn, header)),
    }
}

fn settled_test<R: ThresholdRules>(at: BalancePosition, turn: Turn, header: &Header) -> TurnPosition
    requires header { IsHeader header.now }
    requires turn { IsTurnWithin header.now.layout turn }
    requires within { IsTurnPositionWithin header.now.layout (Tests at) }
    ensures same { TurnSame header.now R.pressure R.normal turn (Tests at) result }
    ensures settled { IsTurnSettled header.now R.pressure R.normal turn result }
    ensures ended { TurnEnded header.now R.pressure R.normal turn result →
        TurnEnded header.now R.pressure R.normal turn (Tests at) }
    ensures within { IsTurnPositionWithin header.now.layout result }
    ensures answered { IsTurnAnswered result }
{
    after_test::<R>(at.settled(turn, header), turn, header)
}

/// The position at the end of the balance test, and before it the same.
fn after_test<R: ThresholdRules>(at: BalancePosition, turn: Turn, header: &Header) -> TurnPosition
    requires layout { IsLayout header.now.layout }
    requires within { IsBalanceWithin header.now.layout at }
    requires settled { IsBalanceSettled header.now turn at }
    ensures same { TurnSame header.now R.pressure R.normal turn (Tests at) result }
    ensures settled { IsTurnSettled header.now R.pressure R.normal turn result }
    ensures ended { TurnEnded header.now R.pressure R.normal turn result →
        TurnEnded header.now R.pressure R.normal turn (Tests at) }
    ensures within { IsTurnPositionWithin header.now.layout result }
    ensures answered { IsTurnAnswered result }
{
    match at {
        BalancePosition::Ended(balance) => after_answer::<R>(balance, turn, header),
        BalancePosition::Zone(_, _) => TurnPosition::Tests(at),
    }
}

/// The position after the balance test answered.
fn after_answer<R: ThresholdRules>(balance: Balance, turn: Turn, header: &Header) -> TurnPosition
    requires { IsLayout header.now.layout }
    ensures same { TurnSame header.now R.pressure R.normal turn (Tests (Ended balance)) result }
    ensures settled { IsTurnSettled header.now R.pressure R.normal turn result }
    ensures ended { TurnEnded header.now R.pressure R.normal turn result →
        TurnEnded header.now R.pressure R.normal turn (Tests (Ended balance)) }
    ensures within { IsTurnPositionWithin header.now.layout result }
    ensures answered { IsTurnAnswered result }
{
    match balance {
        Balance::Yes(zone, verdict) => {
            TurnPosition::Settles(zone, verdict, RatingPosition::States(OnlineCpus::none(), 0))
        }
        Balance::No => TurnPosition::Tests(BalancePosition::Ended(Balance::No)),
    }
}

/// The step that is due at a position that is settled.
fn settled_due<R: ThresholdRules>(
    position: TurnPosition,
    turn: Turn,
    header: &Header,
) -> Option<DueStep>
    requires header { IsHeader header.now }
    requires turn { IsTurnWithin header.now.layout turn }
    requires within { IsTurnPositionWithin header.now.layout position }
    requires answered { IsTurnAnswered position }
    requires settled { IsTurnSettled header.now R.pressure R.normal turn position }
    ensures due { IfSome result (λ due. TurnDue header.now R.pressure R.normal turn position due) }
    ensures ended { IsNone result → TurnEnded header.now R.pressure R.normal turn position }
{
    match position {
        TurnPosition::Presses(at) => at.due::<R>(RatingCall::Pressure(turn.node), &header.layout),
        TurnPosition::Tests(at) => at.due(turn, header),
        TurnPosition::Settles(_, _, at) => {
            at.due::<R>(RatingCall::Normal(turn.node), &header.layout)
        }
    }
}

/// The position after a step at a position that is settled.
fn settled_next<R: ThresholdRules>(
    position: TurnPosition,
    turn: Turn,
    header: &Header,
    step: Step,
) -> Option<TurnPosition>
    requires header { IsHeader header.now }
    requires turn { IsTurnWithin header.now.layout turn }
    requires within { IsTurnPositionWithin header.now.layout position }
    requires answered { IsTurnAnswered position }
    requires settled { IsTurnSettled header.now R.pressure R.normal turn position }
    ensures goes { IfSome result (λ later. TurnGoes header.now R.pressure R.normal turn position step later) }
    ensures stops { IsNone result → TurnStops header.now R.pressure R.normal turn position step }
    ensures within { IfSome result (λ later. IsTurnPositionWithin header.now.layout later) }
{
    match position {
        TurnPosition::Presses(at) => after_pressure::<R>(at, turn, header, step),
        TurnPosition::Tests(at) => after_balance::<R>(at, turn, header, step),
        TurnPosition::Settles(zone, verdict, at) => {
            after_rating::<R>(zone, verdict, at, turn, header, step)
        }
    }
}

/// The position after a step of the call that gives thresholds under pressure.
fn after_pressure<R: ThresholdRules>(
    at: RatingPosition,
    turn: Turn,
    header: &Header,
    step: Step,
) -> Option<TurnPosition>
    requires header { IsHeader header.now }
    requires turn { IsTurnWithin header.now.layout turn }
    requires within { IsTurnPositionWithin header.now.layout (Presses at) }
    requires answered { IsTurnAnswered (Presses at) }
    requires settled { IsTurnSettled header.now R.pressure R.normal turn (Presses at) }
    ensures goes { IfSome result (λ later. TurnGoes header.now R.pressure R.normal turn (Presses at) step later) }
    ensures stops { IsNone result → TurnStops header.now R.pressure R.normal turn (Presses at) step }
    ensures within { IfSome result (λ later. IsTurnPositionWithin header.now.layout later) }
{
    match at.next::<R>(RatingCall::Pressure(turn.node), &header.layout, step) {
        Some(later) => Some(TurnPosition::Presses(later)),
        None => None,
    }
}

/// The position after a step of the balance test.
fn after_balance<R: ThresholdRules>(
    at: BalancePosition,
    turn: Turn,
    header: &Header,
    step: Step,
) -> Option<TurnPosition>
    requires header { IsHeader header.now }
    requires within { IsTurnPositionWithin header.now.layout (Tests at) }
    requires settled { IsTurnSettled header.now R.pressure R.normal turn (Tests at) }
    ensures goes { IfSome result (λ later. TurnGoes header.now R.pressure R.normal turn (Tests at) step later) }
    ensures stops { IsNone result → TurnStops header.now R.pressure R.normal turn (Tests at) step }
    ensures within { IfSome result (λ later. IsTurnPositionWithin header.now.layout later) }
{
    match at {
        BalancePosition::Ended(_) => None,
        BalancePosition::Zone(_, _) => match at.next(turn, header, step) {
            Some(later) => Some(TurnPosition::Tests(later)),
            None => None,
        },
    }
}

/// The position after a step of the call that gives normal thresholds.
fn after_rating<R: ThresholdRules>(
    zone: PlaceId,
    verdict: OrderVerdict,
    at: RatingPosition,
    turn: Turn,
    header: &Header,
    step: Step,
) -> Option<TurnPosition>
    requires header { IsHeader header.now }
    requires turn { IsTurnWithin header.now.layout turn }
    requires within { IsTurnPositionWithin header.now.layout (Settles zone verdict at) }
    requires answered { IsTurnAnswered (Settles zone verdict at) }
    ensures goes { IfSome result
        (λ later. TurnGoes header.now R.pressure R.normal turn (Settles zone verdict at) step later) }
    ensures stops { IsNone result → TurnStops header.now R.pressure R.normal turn (Settles zone verdict at) step }
    ensures within { IfSome result (λ later. IsTurnPositionWithin header.now.layout later) }
{
    match at.next::<R>(RatingCall::Normal(turn.node), &header.layout, step) {
        Some(later) => Some(TurnPosition::Settles(zone, verdict, later)),
        None => None,
    }
}
