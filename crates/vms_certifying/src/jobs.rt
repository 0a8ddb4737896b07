use crate::HistoryJudge;
use crate::history_lines::is_history_line;
use crate::printing::write_fault_line;
use crate::trace_parts::TracePart;
use crate::verdicts::{Verdict, Verdicts};
use crate::written_parts::WrittenPart;
use std::alloc::Global;
use std::mem::replace;
use vms_base::Memory;
use vms_command::write_header_line;
use vms_header::{HeaderReader, HeaderStep, ReadError};
use vms_phase_checks::EventCause;
use vms_stream::{Job, Status};

/// The most lines of an input.
const MOST_LINES: u32 = 1_000_000;

/// The command on its way through its input.
#[derive(Drop)]
pub(crate) struct CertifyJob<J> {
    pub(crate) alloc: Global,
    /// The number of the line that comes next, counted from 1.
    pub(crate) line: u32,
    pub(crate) work: Work<J>,
    /// What was due where the history is refused.
    pub(crate) note: Vec<u8>,
}

/// What the command is at work on.
#[derive(Drop)]
pub(crate) enum Work<J> {
    Header(HeaderReader),
    Trace(TracePart<J>),
    Written(WrittenPart<J>),
    /// Nothing is read any more: a line stopped the command, or memory ran out.
    Stopped,
}

impl<J: HistoryJudge> CertifyJob<J> {
    ghost use Rattle.std.specs.Prelude.{◌≡◌, ◌≤◌, IfOk, OnOk};
    ghost use Rattle.vms_header.specs.Common.{Stage, head_line};
    ghost use Rattle.vms_stream.specs.Common.{TakesPhased};
    ghost use Rattle.vms_command.specs.Common.{most_lines};
    ghost use Rattle.vms_certifying.specs.Certifying.{CertifyState, certifying};
    ghost use Rattle.vms_certifying.specs.JobStates.{EndsTrace, IsHead, MayEndTrace, StandsAt, TakesHeadLine, made_by};

    /// Before the first line.
    pub(crate) fn begin(alloc: Global) -> CertifyJob<J>
        ensures { StandsAt J.Gathers J.Accepts result (certifying J.rules).start }
    {
        CertifyJob {
            alloc,
            line: 1,
            work: Work::Header(HeaderReader::make(alloc)),
            note: Vec::new(alloc),
        }
    }

    /// What was due where the history is refused: nothing where none is.
    pub(crate) fn note(&self) -> &[u8] {
        self.note.as_slice()
    }

    /// Takes a line within the limit.
    fn take_within(
        &mut self,
        verdicts: &mut Verdicts,
        line: &[u8],
        out: &mut Vec<u8>,
    ) -> Result<Option<Status>, Memory>
        requires stands { (state : CertifyState) × StandsAt J.Gathers J.Accepts self.old state }
        requires within { self.old.line ≤ most_lines }
        ensures { TakesPhased (certifying J.rules) (StandsAt J.Gathers J.Accepts self.old)
            (StandsAt J.Gathers J.Accepts self.new) (made_by verdicts.old) (made_by verdicts.new) line.now result
            out.old.items out.new.items }
    {
        let number = self.line;
        self.line += 1;
        match &mut self.work {
            Work::Trace(part) => {
                if is_history_line(line) {
                    self.end_trace()
                } else {
                    part.take_line(number, line)
                }
            }
            Work::Written(part) => part.take_line(verdicts, number, line, out, &mut self.note),
            _ => self.take_header_line(number, line, out),
        }
    }

    /// Takes the line of this number, which stands in the header.
    fn take_header_line(
        &mut self,
        number: u32,
        line: &[u8],
        out: &mut Vec<u8>,
    ) -> Result<Option<Status>, Memory>
        ensures work { IfOk result (λ halt. (stage : Stage) → IsHead J.Gathers J.Accepts stage self.old.work →
            TakesHeadLine J.Gathers J.Accepts number (head_line stage line.now) halt out.old.items out.new.items
            self.new.work) }
        ensures line { OnOk result (self.new.line ≡ self.old.line) }
    {
        let work = replace(&mut self.work, Work::Stopped);
        let (work, halt) = step_work(self.alloc, work, number, line, out)?;
        self.work = work;
        Ok(halt)
    }

    /// Takes the line that ends the trace.
    fn end_trace(&mut self) -> Result<Option<Status>, Memory>
        requires { MayEndTrace J.Gathers J.Accepts self.old.work }
        ensures work { OnOk result (EndsTrace J.Gathers J.Accepts self.old.work self.new.work) }
        ensures line { OnOk result (self.new.line ≡ self.old.line) }
        ensures goes { IfOk result (λ halt. halt ≡ None) }
    {
        let work = replace(&mut self.work, Work::Stopped);
        self.work = ended(work)?;
        Ok(None)
    }
}

impl<J: HistoryJudge> Job for CertifyJob<J> {
    ghost use Rattle.vms_certifying.specs.declared.verdicts.Verdict.{Verdict};
    ghost use Rattle.vms_certifying.specs.Certifying.{CertifyState, certifying};
    ghost use Rattle.vms_certifying.specs.JobStates.{StandsAt, made_by, shown_nothing};

    type Engine = Verdicts;

    ghost State = { CertifyState };

    ghost Outcome = { Verdict };

    ghost behavior = { certifying J.rules };

    ghost made = { made_by };

    ghost Stands = { StandsAt J.Gathers J.Accepts };

    ghost Shows = { shown_nothing };

    fn take_line(
        &mut self,
        verdicts: &mut Verdicts,
        line: &[u8],
        out: &mut Vec<u8>,
    ) -> Result<Option<Status>, Memory> {
        if self.line > MOST_LINES {
            return Ok(Some(Status::TooLong));
        }
        self.take_within(verdicts, line, out)
    }

    fn end(&mut self, verdicts: &mut Verdicts, out: &mut Vec<u8>) -> Result<Status, Memory> {
        match &mut self.work {
            Work::Header(reader) => {
                write_header_line(out, self.line, reader.missing())?;
                Ok(Status::Header)
            }
            Work::Trace(_) => {
                note_history(&mut self.note);
                write_fault_line(out, self.line, EventCause::Incomplete)?;
                verdicts.add(Verdict::Refused(EventCause::Incomplete))?;
                Ok(Status::NotCertified)
            }
            Work::Written(part) => part.end(verdicts, self.line, out, &mut self.note),
            Work::Stopped => Ok(Status::Done),
        }
    }
}

ghost use Rattle.std.specs.Prelude.{IfOk};
ghost use Rattle.vms_header.specs.Common.{Stage, head_line};
ghost use Rattle.vms_certifying.specs.JobStates.{EndsTrace, IsHead, MayEndTrace, TakesHeadLine};

/// Takes the line of this number, where a header is read.
fn step_work<J: HistoryJudge>(
    alloc: Global,
    work: Work<J>,
    number: u32,
    line: &[u8],
    out: &mut Vec<u8>,
) -> Result<(Work<J>, Option<Status>), Memory>
    ensures { IfOk result (λ took. (stage : Stage) → IsHead J.Gathers J.Accepts stage work →
        TakesHeadLine J.Gathers J.Accepts number (head_line stage line.now) took.1 out.old.items out.new.items
        took.0) }
{
    match work {
        Work::Header(reader) => step_header(alloc, reader, number, line, out),
        other => Ok((other, None)),
    }
}

/// Takes a step of the header's reader with the line of this number, and appends what is printed of it.
fn step_header<J: HistoryJudge>(
    alloc: Global,
    reader: HeaderReader,
    number: u32,
    line: &[u8],
    out: &mut Vec<u8>,
) -> Result<(Work<J>, Option<Status>), Memory>
    ensures { IfOk result (λ took. TakesHeadLine J.Gathers J.Accepts number (head_line reader line.now) took.1
        out.old.items out.new.items took.0) }
{
    match reader.read(line) {
        Ok(HeaderStep::Goes(reader)) => Ok((Work::Header(reader), None)),
        Ok(HeaderStep::Ends(header)) => {
            let part = TracePart::begin(alloc, header)?;
            Ok((Work::Trace(part), None))
        }
        Err(ReadError::Refused(cause)) => {
            write_header_line(out, number, cause)?;
            Ok((Work::Stopped, Some(Status::Header)))
        }
        Err(ReadError::Memory) => Err(Memory),
    }
}

/// The history begins, where a trace is read.
fn ended<J: HistoryJudge>(work: Work<J>) -> Result<Work<J>, Memory>
    requires { MayEndTrace J.Gathers J.Accepts work }
    ensures { IfOk result (EndsTrace J.Gathers J.Accepts work) }
{
    match work {
        Work::Trace(part) => Ok(Work::Written(part.end()?)),
        other => Ok(other),
    }
}

/// Notes that a history is due: nothing where memory is wanting.
fn note_history(note: &mut Vec<u8>) {
    if note.extend_from_slice(b"due: history 1\n").is_err() {
        note.clear();
    }
}
