//! Threads that stand over many phases, and make the jobs that they are handed: what comes back for a job is an answer
//! of this very job.
#![tactic(auto)]

mod asked;
mod crews;
mod replies;
mod rules;
mod scopes;
mod threads;

pub use asked::Asked;
pub use crews::Crew;
pub use replies::Reply;
pub use rules::{Answers, Replied, Work};
pub use scopes::{InScope, Starts, run_in_scope};
pub use threads::{JobQueue, StandingThreads, no_threads, start};
