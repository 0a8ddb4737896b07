use crate::{Answers, Reply, Work};
use crossbeam_channel::Receiver;
use std::alloc::Global;
use std::marker::Model;
use std::sync::{Arc, Wait};

/// A job with the place for its answer: what a thread is handed.
#[derive(Drop)]
pub struct Asked<J, D: Answers<J>> {
    job: J,
    reply: Arc<Reply<J, D>, Global>,
}

impl<J, D: Answers<J>> Model for Asked<J, D> {
    ghost use Rattle.std.specs.Prelude.{◌≡◌};
    ghost use Rattle.std.specs.Arc.{arc_value};

    ghost Value = { J };

    ghost view = { λ asked. asked.job };

    ghost invariant = { λ asked. (arc_value asked.reply ≡ asked.job) × D.asks asked.job };
}

ghost use Rattle.std.specs.Prelude.{◌≡◌};
ghost use Rattle.std.specs.Arc.{arc_value};

impl<J: Drop, D: Answers<J> + Drop> Asked<J, D> {
    /// A job that may be made, with the place for its answer.
    pub fn of(job: J, reply: Arc<Reply<J, D>, Global>) -> Asked<J, D>
        requires same { arc_value reply ≡ job }
        requires may { D.asks job }
        ensures { result ≡ job }
    {
        Asked { job, reply }
    }

    /// Makes the job, and puts what it gives into its place.
    pub fn answer<W: Work<J, D>>(self, work: &W)
        requires { W.may_make work.now }
    {
        let Asked { job, reply } = self;
        let done = work.make(job);
        reply.put(done);
    }
}

/// What a thread does: it answers jobs until no more can come.
pub(crate) fn serve<R: Wait, J: Drop, D: Answers<J> + Drop, W: Work<J, D>>(
    rt: &R,
    work: &W,
    jobs: &Receiver<Asked<J, D>>,
)
    requires { W.may_make work.now }
{
    for _ in rt.forever() {
        let Ok(asked) = jobs.recv(rt) else {
            return;
        };
        asked.answer(work);
    }
    unreachable!()
}
