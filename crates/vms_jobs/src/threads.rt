ghost use Rattle.std.specs.Prelude.{◌≡◌, ◌<◌, IfOk, length};
ghost use Rattle.std.specs.Fork.{AcceptsJobs, GivesJobs};
ghost use Rattle.std.specs.Fork.Halves.{GivesFor};
ghost use Rattle.std.specs.Thread.{IsSend, IsSync};

use std::alloc::AllocError;
use std::thread::{Threads, join};

/// Calls the closure with each job, and returns what the calls give, in the order of the jobs. The call with the first
/// job is made on this thread, and each other one on a thread of its own that this one starts; where none can be made
/// the calls of those that are left come one after another. Where memory runs out some calls may not have been made.
pub fn map_jobs<R: Threads + Sync, J: Send + Drop, X: Send + Drop, F: Fn(J) -> X + Sync>(
    rt: &R,
    jobs: Vec<J>,
    make: &F,
) -> Result<Vec<X>, AllocError>
    requires { AcceptsJobs F.Fn make.now jobs.items }
    ensures one_each { IfOk result (λ results. length results.items ≡ length jobs.items) }
    ensures each { IfOk result (λ results. GivesJobs F.Fn make.now jobs.items results.items) }
{
    call_beside(rt, make, jobs)
}

/// The last job goes to a thread, and the jobs before it are shared out here in the same way.
#[cycle(beside)]
fn call_beside<R: Threads + Sync, J: Send + Drop, X: Send + Drop, F: Fn(J) -> X + Sync>(
    rt: &R,
    make: &F,
    mut jobs: Vec<J>,
) -> Result<Vec<X>, AllocError>
    requires { AcceptsJobs F.Fn make.now jobs.items }
    ensures { IfOk result (λ results. GivesFor F.Fn make.now jobs.items results.items) }
{
    if jobs.len() < 2 {
        return call_at_most_one(make, jobs);
    }
    let last = jobs.split_off(jobs.len() - 1)?;
    let there = move || -> Result<Vec<X>, AllocError>
        requires { IsSync R.row × IsSync F.row × IsSend J.row × IsSend X.row × AcceptsJobs F.Fn make.now last.items }
        ensures { IfOk result (λ results. GivesFor F.Fn make.entry.now last.items results.items) }
    { call_beside(rt, make, last) };
    let here = move || -> Result<Vec<X>, AllocError>
        requires { IsSync R.row × IsSync F.row × IsSend J.row × IsSend X.row × AcceptsJobs F.Fn make.now jobs.items }
        ensures { IfOk result (λ results. GivesFor F.Fn make.entry.now jobs.items results.items) }
    { call_beside(rt, make, jobs) };
    let (theirs, ours) = join(rt, there, here);
    let mut results = ours?;
    let mut last = theirs?;
    results.append(&mut last)?;
    Ok(results)
}

fn call_at_most_one<J: Drop, X: Drop, F: Fn(J) -> X>(
    make: &F,
    mut jobs: Vec<J>,
) -> Result<Vec<X>, AllocError>
    requires few { length jobs.items < 2 }
    requires accepts { AcceptsJobs F.Fn make.now jobs.items }
    ensures { IfOk result (λ results. GivesFor F.Fn make.now jobs.items results.items) }
{
    let mut results = Vec::new(*jobs.allocator());
    let Some(job) = jobs.pop() else {
        return Ok(results);
    };
    results.push(make(job))?;
    Ok(results)
}
