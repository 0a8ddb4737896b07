ghost use Rattle.std.specs.Prelude.{◌≡◌, All, IfOk};
ghost use Rattle.std.specs.Arc.{arc_value};
ghost use Rattle.vms_standing.specs.Pairs.{Pairs};

use crate::asked::serve;
use crate::{Answers, Asked, Reply, Starts, Work};
use crossbeam_channel::{Receiver, Sender};
use std::alloc::{AllocError, Global};
use std::sync::{Arc, Wait};
use std::thread::Scope;

/// The queue from which threads that stand take jobs. Where there was no memory for it no thread is started.
#[derive(Drop)]
pub struct JobQueue<J, D: Answers<J>> {
    jobs: Option<Receiver<Asked<J, D>>>,
}

/// Threads that stand: each waits for jobs until this is dropped, and sleeps while it waits.
#[derive(Drop)]
pub struct StandingThreads<J, D: Answers<J>> {
    count: usize,
    jobs: Option<Sender<Asked<J, D>>>,
}

/// A queue, and the threads that take jobs from it, of which none stands yet.
pub fn no_threads<J: Drop, D: Answers<J> + Drop>(
    alloc: Global,
) -> (StandingThreads<J, D>, JobQueue<J, D>) {
    let (jobs, queue) = match crossbeam_channel::unbounded(alloc) {
        Ok((jobs, queue)) => (Some(jobs), Some(queue)),
        Err(_) => (None, None),
    };
    (StandingThreads { count: 0, jobs }, JobQueue { jobs: queue })
}

/// Starts a thread that makes the jobs of a queue until no more can come, and says whether it did. It stands while the
/// scope is open.
pub fn start<'s, E, R, W, J, D>(
    scope: &'s Scope<'s, E>,
    rt: &'s R,
    work: &'s W,
    queue: &'s JobQueue<J, D>,
) -> bool
where
    R: Wait + Sync,
    J: Drop + Send + 's,
    D: Answers<J> + Drop + Send + 's,
    W: Work<J, D> + Sync,
    requires { W.may_make work.now }
{
    match &queue.jobs {
        Some(jobs) => scope
            .spawn(
                move ||
                    requires { W.may_make work.now }
                { serve(rt, work, jobs) },
            )
            .is_ok(),
        None => false,
    }
}

impl<J: Drop, D: Answers<J> + Drop> StandingThreads<J, D> {
    /// Sees that so many threads stand, unless one can't be made. The closure starts one (`start`), and says whether it
    /// did.
    pub fn grow<'s, E, C: Starts<E>>(&mut self, scope: &'s Scope<'s, E>, begin: &C, count: usize)
        requires { C.may_start begin.now }
    {
        for number in self.count..count {
            if !begin.start_one(scope) {
                return;
            }
            self.count = number + 1;
        }
    }

    /// Hands the job of this number to the threads, and returns the place for its answer. Where so many threads don't
    /// stand, or the queue takes nothing more, the job is made here.
    fn ask<R: Wait, W: Work<J, D>>(
        &self,
        rt: &R,
        alloc: Global,
        work: &W,
        number: usize,
        job: J,
    ) -> Result<Arc<Reply<J, D>, Global>, AllocError>
        requires work { W.may_make work.now }
        requires may { D.asks job }
        ensures { IfOk result (λ reply. arc_value reply ≡ job) }
    {
        let reply = Arc::new(alloc, Reply::to(alloc, &job)?)?;
        let asked = Asked::of(job, Arc::try_clone(&reply)?);
        let refused = match &self.jobs {
            Some(jobs) if number < self.count => match jobs.send(rt, asked) {
                Ok(()) => None,
                Err(refused) => Some(refused.into_inner()),
            },
            _ => Some(asked),
        };
        if let Some(asked) = refused {
            asked.answer(work);
        }
        Ok(reply)
    }

    /// Has jobs made: the last here, and each other by a thread of its own where one stands. Returns what they give, in
    /// their order.
    pub fn make_all<R: Wait, W: Work<J, D>>(
        &self,
        rt: &R,
        alloc: Global,
        work: &W,
        mut jobs: Vec<J>,
    ) -> Result<Vec<D>, AllocError>
        requires work { W.may_make work.now }
        requires may { All D.asks jobs.items }
        ensures { IfOk result (λ results. Pairs D.answers jobs.items results.items) }
    {
        let Some(last) = jobs.pop() else {
            return Ok(Vec::new(alloc));
        };
        let replies = self.ask_all(rt, alloc, work, jobs)?;
        let done = work.make(last);
        let mut results = take_all(rt, alloc, replies)?;
        results.push(done)?;
        Ok(results)
    }

    /// Hands each job to a thread of its own.
    fn ask_all<R: Wait, W: Work<J, D>>(
        &self,
        rt: &R,
        alloc: Global,
        work: &W,
        jobs: Vec<J>,
    ) -> Result<Vec<Arc<Reply<J, D>, Global>>, AllocError>
        requires work { W.may_make work.now }
        requires may { All D.asks jobs.items }
        ensures { IfOk result (λ replies. Pairs (λ job reply. arc_value reply ≡ job) jobs.items replies.items) }
    {
        let mut replies = Vec::new(alloc);
        for job in jobs {
            let reply = self.ask(rt, alloc, work, replies.len(), job)?;
            replies.push(reply)?;
        }
        Ok(replies)
    }
}

/// Waits for the answers, and takes them out.
fn take_all<R: Wait, J, D: Answers<J> + Drop>(
    rt: &R,
    alloc: Global,
    replies: Vec<Arc<Reply<J, D>, Global>>,
) -> Result<Vec<D>, AllocError>
    ensures { IfOk result (λ results. Pairs (λ reply. D.answers (arc_value reply)) replies.items results.items) }
{
    let mut results = Vec::new(alloc);
    for reply in replies {
        results.push(reply.take(rt))?;
    }
    Ok(results)
}
