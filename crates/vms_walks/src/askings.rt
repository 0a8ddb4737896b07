ghost use Rattle.std.specs.Prelude.{◌≡◌};
ghost use Rattle.vms_walks.specs.Askings.{asking_at, asking_of, asking_of_burial, asking_of_turn};

use vms_cursors::{BurialPosition, Cursor, Rated, RatingCall, RatingPosition, Turn, TurnPosition};

/// What the rules are asked for.
#[derive(Clone, Copy, Debug)]
pub(crate) struct Asking {
    /// The call that asks.
    pub(crate) call: RatingCall,
    /// What it knows.
    pub(crate) seen: Rated,
    pub(crate) zone: u32,
}

/// What the rules are asked for where a call stands: none where no rule is asked.
pub(crate) fn rules_asked(cursor: &Cursor) -> Option<Asking>
    ensures { result ≡ asking_of cursor.now }
{
    match cursor {
        Cursor::Rates(call, at) => asked_at(*call, at),
        Cursor::Bury(_, at) => asked_of_burial(at),
        Cursor::Turn(turn, at) => asked_of_turn(*turn, at),
        _ => None,
    }
}

fn asked_of_burial(at: &BurialPosition) -> Option<Asking>
    ensures { result ≡ asking_of_burial at.now }
{
    match at {
        BurialPosition::Folds(_) => None,
        BurialPosition::Rates(at) => asked_at(RatingCall::Refresh, at),
    }
}

fn asked_of_turn(turn: Turn, at: &TurnPosition) -> Option<Asking>
    ensures { result ≡ asking_of_turn turn at.now }
{
    match at {
        TurnPosition::Presses(at) => asked_at(RatingCall::Pressure(turn.node), at),
        TurnPosition::Tests(_) => None,
        TurnPosition::Settles(_, _, at) => asked_at(RatingCall::Normal(turn.node), at),
    }
}

fn asked_at(call: RatingCall, at: &RatingPosition) -> Option<Asking>
    ensures { result ≡ asking_at call at.now }
{
    match at {
        RatingPosition::Asks(seen, zone, _) => Some(Asking {
            call,
            seen: *seen,
            zone: *zone,
        }),
        _ => None,
    }
}
