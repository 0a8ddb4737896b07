use crate::{Answers, StandingThreads, Starts, Work};
use std::alloc::{AllocError, Global};
use std::marker::Model;
use std::sync::Wait;
use std::thread::Scope;

/// Threads that stand while a scope is open, with the closure that starts one, and with what makes jobs.
#[derive(Drop)]
pub struct Crew<'s, 'w, E, C: Starts<E>, W: Work<J, D>, J, D: Answers<J>> {
    scope: &'s Scope<'s, E>,
    begin: C,
    work: &'w W,
    threads: StandingThreads<J, D>,
}

impl<'s, 'w, E, C: Starts<E>, W: Work<J, D>, J, D: Answers<J>> Model
    for Crew<'s, 'w, E, C, W, J, D> {
    ghost Value = { Unit {0} };

    ghost view = { λ crew. tt };

    ghost invariant = { λ crew. C.may_start crew.begin × W.may_make crew.work.now };
}

impl<'s, 'w, E, C: Starts<E>, W: Work<J, D>, J: Drop, D: Answers<J> + Drop> Crew<
    's,
    'w,
    E,
    C,
    W,
    J,
    D,
> {
    ghost use Rattle.std.specs.Prelude.{All, IfOk};
    ghost use Rattle.vms_standing.specs.Pairs.{Pairs};

    pub fn new(
        scope: &'s Scope<'s, E>,
        begin: C,
        work: &'w W,
        threads: StandingThreads<J, D>,
    ) -> Crew<'s, 'w, E, C, W, J, D>
        requires begin { C.may_start begin }
        requires work { W.may_make work.now }
    {
        Crew {
            scope,
            begin,
            work,
            threads,
        }
    }

    /// Has jobs made: the last here, and each other by a thread of its own where one can be made. Returns what they
    /// give, in their order. A single job starts no thread.
    pub fn make_all<R: Wait>(
        &mut self,
        rt: &R,
        alloc: Global,
        jobs: Vec<J>,
    ) -> Result<Vec<D>, AllocError>
        requires { All D.asks jobs.items }
        ensures { IfOk result (λ results. Pairs D.answers jobs.items results.items) }
    {
        let others = jobs.len().saturating_sub(1);
        self.threads.grow(self.scope, &self.begin, others);
        self.threads.make_all(rt, alloc, self.work, jobs)
    }
}
