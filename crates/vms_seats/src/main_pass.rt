ghost use Rattle.std.specs.Prelude.{◌≡◌};
ghost use Rattle.vms_seats.specs.MainSteps.{HasBegun, HasEnded, MayBeginPass, MayEndPass};
ghost use Rattle.vms_seats.specs.Passes.{IsMain, IsFrom};
ghost use Rattle.vms_seats.specs.Seats.{IsMainSeat, main_of};

use crate::Ledger;
use crate::ledgers::Owner;
use crate::views::{Beginning, Ending, View};
use crate::words::Words;
use crate::workers::Worker;
use atomic_table::Seat;
use std::marker::{Brand, Model};
use vms_base::CpuId;

/// The pass that begins and ends the others. Contracts see in it what they see in a worker; its number is 0.
#[derive(Drop)]
pub struct Main<L: Ledger> {
    pub(crate) seat: Seat<(), View<L::Facts, L::Step>>,
}

impl<L: Ledger> Model for Main<L> {
    ghost use Rattle.vms_seats.specs.Passes.{Pass};

    ghost Value = { Pass L.Facts L.Step };

    ghost use Rattle.vms_seats.specs.Seats.{IsMainSeat, main_of};

    ghost view = { λ m. main_of m.seat };

    ghost invariant = { λ m. IsMainSeat L.machine m.seat };
}

impl<L: Ledger> Main<L> {
    /// What holds of a main pass at any time.
    pub fn is_main(&self)
        ensures { IsMain L.machine self.now }
    {
        seats_are_main::<L>(&self.seat);
    }

    /// Begins a pass that owns a CPU, or a control pass.
    pub fn begin(&mut self, words: &Words<L>, cpu: Option<CpuId>) -> Worker<L>
        requires words { IsFrom self.old words.now }
        requires begins { MayBeginPass L.machine self.old cpu }
        ensures { HasBegun L.machine L.begins self.new self.old result cpu }
    {
        self.begin_as::<Brand>(words, cpu)
    }

    fn begin_as<O: Owner>(&mut self, words: &Words<L>, cpu: Option<CpuId>) -> Worker<L>
        requires owner { O.cpu ≡ cpu }
        requires words { IsFrom self.old words.now }
        requires begins { MayBeginPass L.machine self.old cpu }
        ensures { HasBegun L.machine L.begins self.new self.old result cpu }
    {
        let shared = &words.table.shared;
        shared.load::<Beginning<L, O>>(&mut self.seat, 0);
        let seat = shared.split_seat::<Beginning<L, O>>(&mut self.seat);
        Worker { seat, cpu }
    }

    /// Ends a pass. The main pass then knows all that it knew.
    pub fn end(&mut self, words: &Words<L>, worker: Worker<L>)
        requires words { IsFrom self.old words.now × IsFrom worker words.now }
        requires ends { MayEndPass L.machine worker }
        ensures { HasEnded L.machine L.ends self.new self.old worker }
    {
        let shared = &words.table.shared;
        let Worker { seat, cpu: _ } = worker;
        shared.join_seat::<Ending<L>>(&mut self.seat, seat);
        shared.load::<Ending<L>>(&mut self.seat, 0);
    }
}

/// The pass that the seat of a main pass acts for is the main one.
fn seats_are_main<L: Ledger>(seat: &Seat<(), View<L::Facts, L::Step>>)
    requires { IsMainSeat L.machine seat.now }
    ensures { IsMain L.machine (main_of seat.now) }
{}
