use crate::Body;
use crate::body_jobs::BodyJob;
use crate::printing::write_header_line;
use std::alloc::Global;
use std::mem::replace;
use vms_base::Memory;
use vms_header::{HeaderReader, HeaderStep, ReadError};
use vms_stream::{Job, Status};

/// The most lines of a trace.
const MOST_LINES: u32 = 1_000_000;

/// A command on its way through a trace.
#[derive(Drop)]
pub(crate) struct TraceJob<B> {
    pub(crate) alloc: Global,
    /// The number of the line that comes next, counted from 1.
    pub(crate) line: u32,
    pub(crate) work: Work<B>,
}

/// What a command is at work on.
#[derive(Drop)]
pub(crate) enum Work<B> {
    Header(HeaderReader),
    Body(BodyJob<B>),
    /// Nothing is read any more: the header was refused, or memory ran out.
    Stopped,
}

impl<B: Body> TraceJob<B> {
    ghost use Rattle.std.specs.Prelude.{◌≡◌, ◌≤◌, IfOk, OnOk};
    ghost use Rattle.vms_command.specs.Commands.{CommandState, following};
    ghost use Rattle.vms_command.specs.Limits.{most_lines};
    ghost use Rattle.vms_command.specs.JobStates.{IsHead, TakesHeadLine, StandsAt};
    ghost use Rattle.vms_header.specs.Common.{Stage, head_line};
    ghost use Rattle.vms_stream.specs.Common.{TakesPhased, Waiting, waiting};

    /// Before the first line.
    pub(crate) fn begin(alloc: Global) -> TraceJob<B>
        ensures { StandsAt B.Stands result (waiting (following B.command)).start }
    {
        TraceJob {
            alloc,
            line: 1,
            work: Work::Header(HeaderReader::make(alloc)),
        }
    }

    /// Takes a line within the limit.
    #[inline(always)]
    fn take_within(
        &mut self,
        engine: &mut B::Engine,
        line: &[u8],
        out: &mut Vec<u8>,
    ) -> Result<Option<Status>, Memory>
        requires stands { (now : Waiting (CommandState B.Kept) B.Outcome) × StandsAt B.Stands self.old now }
        requires within { self.old.line ≤ most_lines }
        ensures { TakesPhased (waiting (following B.command)) (StandsAt B.Stands self.old) (StandsAt B.Stands self.new)
            (B.made engine.old) (B.made engine.new) line.now result out.old.items out.new.items }
    {
        let number = self.line;
        self.line += 1;
        if let Work::Body(body) = &mut self.work {
            return body.take_line(engine, number, line, out);
        }
        self.take_header_line(number, line, out)
    }

    /// Takes the line of this number, which stands in the header.
    #[cold]
    fn take_header_line(
        &mut self,
        number: u32,
        line: &[u8],
        out: &mut Vec<u8>,
    ) -> Result<Option<Status>, Memory>
        ensures work { IfOk result (λ halt. (stage : Stage) → IsHead stage self.old.work →
            TakesHeadLine B.command B.Stands number (head_line stage line.now) halt
            out.old.items out.new.items self.new.work) }
        ensures line { OnOk result (self.new.line ≡ self.old.line) }
    {
        let work = replace(&mut self.work, Work::Stopped);
        let (work, halt) = step_work(self.alloc, work, number, line, out)?;
        self.work = work;
        Ok(halt)
    }
}

impl<B: Body> Job for TraceJob<B> {
    ghost use Rattle.vms_command.specs.Bodies.{shown_given};
    ghost use Rattle.vms_command.specs.Commands.{CommandState, following};
    ghost use Rattle.vms_command.specs.JobStates.{StandsAt};
    ghost use Rattle.vms_stream.specs.Common.{Waiting, waiting};

    type Engine = B::Engine;

    ghost State = { Waiting (CommandState B.Kept) B.Outcome };

    ghost Outcome = { B.Outcome };

    ghost behavior = { waiting (following B.command) };

    ghost made = { B.made };

    ghost Stands = { StandsAt B.Stands };

    ghost Shows = { shown_given B.Shows };

    fn take_line(
        &mut self,
        engine: &mut B::Engine,
        line: &[u8],
        out: &mut Vec<u8>,
    ) -> Result<Option<Status>, Memory> {
        if self.line > MOST_LINES {
            return Ok(Some(Status::TooLong));
        }
        self.take_within(engine, line, out)
    }

    fn end(&mut self, engine: &mut B::Engine, out: &mut Vec<u8>) -> Result<Status, Memory> {
        match &mut self.work {
            Work::Header(reader) => {
                write_header_line(out, self.line, reader.missing())?;
                Ok(Status::Header)
            }
            Work::Body(body) => body.end(engine, out),
            Work::Stopped => Ok(Status::Done),
        }
    }
}

ghost use Rattle.std.specs.Prelude.{IfOk};
ghost use Rattle.vms_header.specs.Common.{Stage, head_line};
ghost use Rattle.vms_command.specs.JobStates.{IsHead, TakesHeadLine};

/// Takes the line of this number, where a header is read.
fn step_work<B: Body>(
    alloc: Global,
    work: Work<B>,
    number: u32,
    line: &[u8],
    out: &mut Vec<u8>,
) -> Result<(Work<B>, Option<Status>), Memory>
    ensures { IfOk result (λ took. (stage : Stage) → IsHead stage work →
        TakesHeadLine B.command B.Stands number (head_line stage line.now) took.1
        out.old.items out.new.items took.0) }
{
    match work {
        Work::Header(reader) => step_header(alloc, reader, number, line, out),
        Work::Body(body) => Ok((Work::Body(body), None)),
        Work::Stopped => Ok((Work::Stopped, None)),
    }
}

/// Takes a step of the header's reader with the line of this number, and appends what is printed of it.
fn step_header<B: Body>(
    alloc: Global,
    reader: HeaderReader,
    number: u32,
    line: &[u8],
    out: &mut Vec<u8>,
) -> Result<(Work<B>, Option<Status>), Memory>
    ensures { IfOk result (λ took. TakesHeadLine B.command B.Stands number (head_line reader line.now) took.1
        out.old.items out.new.items took.0) }
{
    match reader.read(line) {
        Ok(HeaderStep::Goes(reader)) => Ok((Work::Header(reader), None)),
        Ok(HeaderStep::Ends(header)) => {
            let body = BodyJob::begin(alloc, header, out)?;
            Ok((Work::Body(body), None))
        }
        Err(ReadError::Refused(cause)) => {
            write_header_line(out, number, cause)?;
            Ok((Work::Stopped, Some(Status::Header)))
        }
        Err(ReadError::Memory) => Err(Memory),
    }
}
