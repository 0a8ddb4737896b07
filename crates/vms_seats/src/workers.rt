ghost use Rattle.std.specs.Prelude.{◌≡◌, ℕ, ◌+◌, ◌%◌, ◌^◌, ◌<◌, ◌==◌, if◌then◌else◌, Some};
ghost use Rattle.vms_seats.specs.Passes.{Pass, IsFrom, IsLive};
ghost use Rattle.vms_seats.specs.Seats.{IsWorker, worker_of};
ghost use Rattle.vms_seats.specs.Steps.{MayStep, MadeOne};

use crate::Ledger;
use crate::ledgers::Plan;
use crate::views::{View, Working};
use crate::words::Words;
use atomic_table::Seat;
use std::marker::{Brand, Model};
use vms_base::CpuId;

/// A pass that works on shared words. Contracts see in it which words it was made from, its number, the CPU that it
/// owns if it owns one, and the history that it has seen.
#[derive(Drop)]
pub struct Worker<L: Ledger> {
    pub(crate) seat: Seat<(), View<L::Facts, L::Step>>,
    pub(crate) cpu: Option<CpuId>,
}

impl<L: Ledger> Model for Worker<L> {
    ghost use Rattle.vms_seats.specs.Passes.{Pass};

    ghost Value = { Pass L.Facts L.Step };

    ghost use Rattle.vms_seats.specs.Seats.{IsWorker, worker_of};

    ghost view = { λ w. worker_of w.seat w.cpu };

    ghost invariant = { λ w. IsWorker L.machine w.seat w.cpu };
}

impl<L: Ledger> Worker<L> {
    /// The CPU that the pass owns; none is owned by a control pass.
    #[inline]
    pub fn cpu(&self) -> Option<CpuId>
        ensures cpu { result ≡ self.now.cpu }
        ensures live { IsLive L.machine self.now }
    {
        self.cpu
    }

    /// What holds of a worker at any time: it lives in the legal history that it has seen.
    #[inline]
    pub fn is_live(&self)
        ensures { IsLive L.machine self.now }
    {
        workers_live::<L>(&self.seat, self.cpu);
    }
}

/// The pass that a worker's seat acts for lives.
#[inline]
fn workers_live<L: Ledger>(seat: &Seat<(), View<L::Facts, L::Step>>, cpu: Option<CpuId>)
    requires { IsWorker L.machine seat.now cpu }
    ensures { IsLive L.machine (worker_of seat.now cpu) }
{}

/// A pass that makes single steps on the words of one kind of table. A call names the step that it plans; the step that
/// it makes is this one with the number that was found.
pub trait Works<L: Ledger> {
    // The pass that it is.
    ghost pass: { Self → Pass L.Facts L.Step };

    // The steps that leave what it keeps beside its pass.
    ghost Leaves: { L.Step → Type 0 };

    /// Loads a word.
    fn load_at(&mut self, words: &Words<L>, place: usize, plan: &L::Step) -> u64
        requires words { IsFrom (pass self.old) words.now }
        requires place { place < words.now.table.words }
        requires step { MayStep L.machine L.shown (pass self.old) place (λ n. n) (L.told plan.now) }
        requires leaves { (n : ℕ) → Leaves (L.told plan.now n) }
        ensures { MadeOne L.machine (pass self.new) (pass self.old) (L.told plan.now result) };

    /// Puts a number into a word, and tells the one that stood there.
    fn swap_at(&mut self, words: &Words<L>, place: usize, new: u64, plan: &L::Step) -> u64
        requires words { IsFrom (pass self.old) words.now }
        requires place { place < words.now.table.words }
        requires step { MayStep L.machine L.shown (pass self.old) place (λ n. new) (L.told plan.now) }
        requires leaves { (n : ℕ) → Leaves (L.told plan.now n) }
        ensures { MadeOne L.machine (pass self.new) (pass self.old) (L.told plan.now result) };

    /// Adds to a word, modulo 2^64, and tells the number that stood there.
    fn add_at(&mut self, words: &Words<L>, place: usize, amount: u64, plan: &L::Step) -> u64
        requires words { IsFrom (pass self.old) words.now }
        requires place { place < words.now.table.words }
        requires step { MayStep L.machine L.shown (pass self.old) place (λ n. (n + amount) % 2 ^ 64) (L.told plan.now) }
        requires leaves { (n : ℕ) → Leaves (L.told plan.now n) }
        ensures { MadeOne L.machine (pass self.new) (pass self.old) (L.told plan.now result) };

    /// Puts a number into a word where the word is `old`, and tells the number that stood there in any case.
    fn exchange_at(
        &mut self,
        words: &Words<L>,
        place: usize,
        old: u64,
        new: u64,
        plan: &L::Step,
    ) -> u64
        requires words { IsFrom (pass self.old) words.now }
        requires place { place < words.now.table.words }
        requires step { MayStep L.machine L.shown (pass self.old) place
            (λ n. if n == old then new else n) (L.told plan.now) }
        requires leaves { (n : ℕ) → Leaves (L.told plan.now n) }
        ensures { MadeOne L.machine (pass self.new) (pass self.old) (L.told plan.now result) };
}

impl<L: Ledger> Works<L> for Worker<L> {
    ghost pass = { λ w. w };

    ghost Leaves = { λ step. Unit {0} };

    #[inline]
    fn load_at(&mut self, words: &Words<L>, place: usize, plan: &L::Step) -> u64 {
        self.load_as::<Brand>(words, place, plan)
    }

    #[inline]
    fn swap_at(&mut self, words: &Words<L>, place: usize, new: u64, plan: &L::Step) -> u64 {
        self.swap_as::<Brand>(words, place, new, plan)
    }

    #[inline]
    fn add_at(&mut self, words: &Words<L>, place: usize, amount: u64, plan: &L::Step) -> u64 {
        self.add_as::<Brand>(words, place, amount, plan)
    }

    #[inline]
    fn exchange_at(
        &mut self,
        words: &Words<L>,
        place: usize,
        old: u64,
        new: u64,
        plan: &L::Step,
    ) -> u64 {
        self.exchange_as::<Brand>(words, place, old, new, plan)
    }
}

// The same calls, with the steps that they make as a ghost member, which an atomic step can name.
impl<L: Ledger> Worker<L> {
    #[inline]
    fn load_as<P: Plan<L::Step>>(&mut self, words: &Words<L>, place: usize, plan: &L::Step) -> u64
        requires planned { P.step ≡ λ n. Some (L.told plan.now n) }
        requires words { IsFrom self.old words.now }
        requires place { place < words.now.table.words }
        requires step { MayStep L.machine L.shown self.old place (λ n. n) (L.told plan.now) }
        ensures { MadeOne L.machine self.new self.old (L.told plan.now result) }
    {
        words
            .table
            .shared
            .load::<Working<L, P>>(&mut self.seat, place)
    }

    #[inline]
    fn swap_as<P: Plan<L::Step>>(
        &mut self,
        words: &Words<L>,
        place: usize,
        new: u64,
        plan: &L::Step,
    ) -> u64
        requires planned { P.step ≡ λ n. Some (L.told plan.now n) }
        requires words { IsFrom self.old words.now }
        requires place { place < words.now.table.words }
        requires step { MayStep L.machine L.shown self.old place (λ n. new) (L.told plan.now) }
        ensures { MadeOne L.machine self.new self.old (L.told plan.now result) }
    {
        words
            .table
            .shared
            .swap::<Working<L, P>>(&mut self.seat, place, new)
    }

    #[inline]
    fn add_as<P: Plan<L::Step>>(
        &mut self,
        words: &Words<L>,
        place: usize,
        amount: u64,
        plan: &L::Step,
    ) -> u64
        requires planned { P.step ≡ λ n. Some (L.told plan.now n) }
        requires words { IsFrom self.old words.now }
        requires place { place < words.now.table.words }
        requires step { MayStep L.machine L.shown self.old place (λ n. (n + amount) % 2 ^ 64) (L.told plan.now) }
        ensures { MadeOne L.machine self.new self.old (L.told plan.now result) }
    {
        words
            .table
            .shared
            .fetch_add::<Working<L, P>>(&mut self.seat, place, amount)
    }

    #[inline]
    fn exchange_as<P: Plan<L::Step>>(
        &mut self,
        words: &Words<L>,
        place: usize,
        old: u64,
        new: u64,
        plan: &L::Step,
    ) -> u64
        requires planned { P.step ≡ λ n. Some (L.told plan.now n) }
        requires words { IsFrom self.old words.now }
        requires place { place < words.now.table.words }
        requires step { MayStep L.machine L.shown self.old place (λ n. if n == old then new else n) (L.told plan.now) }
        ensures { MadeOne L.machine self.new self.old (L.told plan.now result) }
    {
        words
            .table
            .shared
            .compare_exchange::<Working<L, P>>(&mut self.seat, place, old, new)
    }
}
