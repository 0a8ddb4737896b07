//! The steps of a turn of kswapd.

ghost use Rattle.std.specs.Prelude.{◌≡◌, false, IsTrue};
ghost use Rattle.vms_calls.specs.Common.{IsHeader, IsLayout};
ghost use Rattle.vms_cursors.specs.Turns.{IsTurnAnswered, IsTurnPositionWithin, IsTurnWithin};
ghost use Rattle.vms_cursors.specs.TurnClauses.{TurnGoes};

use crate::rating_steps;
use vms_base::Header;
use vms_calls::ThresholdRules;
use vms_core::Step;
use vms_cursors::{RatingCall, Turn, TurnPosition};

/// Goes on by a step, if this is the step that is due and no rule is asked: whether it went on. Where it didn't,
/// nothing changes.
pub(crate) fn turn_on<R: ThresholdRules>(
    at: &mut TurnPosition,
    turn: Turn,
    header: &Header,
    step: &Step,
) -> bool
    requires header { IsHeader header.now }
    requires turn { IsTurnWithin header.now.layout turn }
    requires within { IsTurnPositionWithin header.now.layout at.old }
    ensures goes { IsTrue result → TurnGoes header.now R.pressure R.normal turn at.old step.now at.new }
    ensures same { result ≡ false → at.new ≡ at.old }
    ensures within { IsTurnPositionWithin header.now.layout at.new }
{
    direct_on::<R>(at, turn, header, step) || next_on::<R>(at, turn, header, step)
}

/// Goes on by a step of any kind, unless a rule is asked.
fn next_on<R: ThresholdRules>(
    at: &mut TurnPosition,
    turn: Turn,
    header: &Header,
    step: &Step,
) -> bool
    requires header { IsHeader header.now }
    requires turn { IsTurnWithin header.now.layout turn }
    requires within { IsTurnPositionWithin header.now.layout at.old }
    ensures goes { IsTrue result → TurnGoes header.now R.pressure R.normal turn at.old step.now at.new }
    ensures same { result ≡ false → at.new ≡ at.old }
    ensures within { IsTurnPositionWithin header.now.layout at.new }
{
    if !is_answered(at) {
        return false;
    }
    match at.next::<R>(turn, header, *step) {
        Some(later) => {
            *at = later;
            true
        }
        None => false,
    }
}

/// Whether no rule is asked.
fn is_answered(at: &TurnPosition) -> bool
    ensures { IsTrue result → IsTurnAnswered at.now }
{
    match at {
        TurnPosition::Presses(rating) => rating_steps::is_answered(rating),
        TurnPosition::Settles(_, _, rating) => rating_steps::is_answered(rating),
        TurnPosition::Tests(_) => true,
    }
}

/// Goes on by a step of a call that gives thresholds after which the position is known at once.
fn direct_on<R: ThresholdRules>(
    at: &mut TurnPosition,
    turn: Turn,
    header: &Header,
    step: &Step,
) -> bool
    requires layout { IsLayout header.now.layout }
    requires within { IsTurnPositionWithin header.now.layout at.old }
    ensures goes { IsTrue result → TurnGoes header.now R.pressure R.normal turn at.old step.now at.new }
    ensures same { result ≡ false → at.new ≡ at.old }
    ensures within { IsTurnPositionWithin header.now.layout at.new }
{
    match at {
        TurnPosition::Presses(rating) => {
            rating_steps::direct_on::<R>(
                rating,
                RatingCall::Pressure(turn.node),
                &header.layout,
                step,
            )
        }
        TurnPosition::Settles(_, _, rating) => {
            rating_steps::direct_on::<R>(
                rating,
                RatingCall::Normal(turn.node),
                &header.layout,
                step,
            )
        }
        TurnPosition::Tests(_) => false,
    }
}
