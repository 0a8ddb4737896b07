ghost use Rattle.std.specs.Prelude.{◌≡◌, ℕ, ◌<◌, false, length, Some, slice_get};
ghost use Rattle.vms_history.specs.Common.{IsComplete, state_after, lives_in};
ghost use Rattle.vms_seats.specs.Passes.{IsFrom};
ghost use Rattle.vms_seats.specs.Seats.{IsPhase, phase_of};

use crate::Ledger;
use crate::main_pass::Main;
use crate::views::{View, Witnessing};
use crate::words::Words;
use atomic_table::{Closed, Seat};
use std::alloc::Global;
use std::marker::Model;

/// Words that no thread shares any more. Contracts see in them the whole history, whose state they show.
pub struct Closing<L: Ledger> {
    words: Closed<(), Global>,
    witness: Seat<(), View<L::Facts, L::Step>>,
}

impl<L: Ledger> Model for Closing<L> {
    ghost use Rattle.vms_seats.specs.Passes.{Phase};

    ghost Value = { Phase L.Facts L.Step };

    ghost use Rattle.std.specs.Prelude.{◌≡◌};
    ghost use Rattle.std.specs.Slots.{slots_items, slots_len, IsFull};
    ghost use Rattle.vms_seats.specs.Seats.{phase_of, IsClosing};

    ghost view = { λ c. phase_of c.witness };

    ghost invariant = { λ c. IsFull c.words.words × (slots_len c.words.slots ≡ 0)
        × IsClosing L.machine L.shown (slots_items c.words.words) c.witness };
}

/// The history of closed words. Contracts see its facts and its events, which are legal and complete. It stores no
/// event: it keeps the seat of a pass that knew them all.
#[derive(Drop)]
pub struct History<L: Ledger> {
    witness: Seat<(), View<L::Facts, L::Step>>,
}

impl<L: Ledger> Model for History<L> {
    ghost use Rattle.vms_history.specs.Common.{IsComplete};
    ghost use Rattle.vms_seats.specs.Passes.{Phase};

    ghost Value = { Phase L.Facts L.Step };

    ghost use Rattle.vms_seats.specs.Seats.{phase_of, IsPhase};

    ghost view = { λ h. phase_of h.witness };

    ghost invariant = { λ h. IsPhase L.machine h.witness };
}

impl<L: Ledger> Words<L> {
    /// Closes the words, once every other pass has ended. The history is what the main pass has seen.
    pub fn close(self, mut main: Main<L>) -> Closing<L>
        requires words { IsFrom main self }
        requires ended { (q : ℕ) → lives_in L.machine.role main.seen q ≡ false }
        ensures history { result ≡ record { facts = self.facts; events = main.seen } }
        ensures complete { IsComplete L.machine self.facts main.seen }
    {
        let Words { table } = self;
        let Main { mut seat } = main;
        let witness = table.shared.split_seat::<Witnessing>(&mut seat);
        let words = table.close_with(seat);
        Closing { words, witness }
    }
}

impl<L: Ledger> Closing<L> {
    /// The number in a word at the end.
    pub fn word(&self, place: usize) -> u64
        requires { place < length (L.shown self.now.facts (state_after L.machine self.now.facts self.now.events)) }
        ensures { slice_get (L.shown self.now.facts (state_after L.machine self.now.facts self.now.events)) place
            ≡ Some result }
    {
        self.words.word(place)
    }

    /// Gives the memory back, and keeps the history.
    pub fn leave(self) -> History<L>
        ensures { result ≡ self }
    {
        let Closing { words, witness } = self;
        words.free();
        History { witness }
    }
}

impl<L: Ledger> History<L> {
    /// What holds of every history: it is legal, and every pass in it has ended.
    pub fn is_complete(&self)
        ensures { IsComplete L.machine self.now.facts self.now.events }
    {
        phases_are_complete::<L>(&self.witness);
    }
}

/// What the seat of a closed history remembers is complete.
fn phases_are_complete<L: Ledger>(witness: &Seat<(), View<L::Facts, L::Step>>)
    requires { IsPhase L.machine witness.now }
    ensures { IsComplete L.machine (phase_of witness.now).facts (phase_of witness.now).events }
{}
