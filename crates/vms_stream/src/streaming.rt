ghost use Rattle.std.specs.Prelude.{◌≡◌};
ghost use Rattle.vms_stream.specs.Courses.{status_in};
ghost use Rattle.vms_stream.specs.PhasedAnswers.{AnswersPhased};

use crate::courses::Course;
use crate::{Job, Status};
use std::alloc::Global;
use vms_io::{Sink, Source};

/// Hands the lines of the input to a job whose phases the engine makes, one after another, and writes what it prints:
/// wherever more than 64 KiB wait, and all that waits before the next piece is read. The engine comes back.
pub fn stream<J: Job, S: Source, K: Sink>(
    alloc: Global,
    job: &mut J,
    engine: J::Engine,
    src: &mut S,
    out: &mut K,
) -> (Status, J::Engine)
    requires { J.Stands job.old J.behavior.start }
    ensures { AnswersPhased J.behavior J.Shows (J.made engine) (J.made result.1) S.remaining S.faults S.calls
        K.written K.faults K.calls src.old src.new out.old out.new result.0 }
{
    let mut engine = engine;
    let ended = run(alloc, job, &mut engine, src, out);
    (status_after(ended), engine)
}

/// The status of a command that ended or stopped.
fn status_after(ended: Result<Status, Status>) -> Status
    ensures { result ≡ status_in ended }
{
    match ended {
        Ok(status) | Err(status) => status,
    }
}

/// Goes through the input to its end, or to where the command stops.
fn run<J: Job, S: Source, K: Sink>(
    alloc: Global,
    job: &mut J,
    engine: &mut J::Engine,
    src: &mut S,
    out: &mut K,
) -> Result<Status, Status>
    requires { J.Stands job.old J.behavior.start }
    ensures { AnswersPhased J.behavior J.Shows (J.made engine.old) (J.made engine.new) S.remaining S.faults S.calls
        K.written K.faults K.calls src.old src.new out.old out.new (status_in result) }
{
    let mut course = Course::begin(alloc)?;
    'pieces: while !course.at_end {
        course.step(job, engine, src, out)?;
    }
    course.finish::<J, S, K>(job, engine, out)
}
