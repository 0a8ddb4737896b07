use crate::printing::{write_certified_line, write_fault_line};
use crate::verdicts::{Verdict, Verdicts};
use crate::{Counted, HistoryJudge, JudgeError};
use vms_base::{Header, Memory};
use vms_command::status_at_end;
use vms_phase_checks::EventCause;
use vms_stream::Status;

/// A history that is read, after the line that ends the trace.
#[derive(Drop)]
pub(crate) struct WrittenPart<J> {
    pub(crate) header: Header,
    /// How many lines of the trace don't count.
    pub(crate) refused: u32,
    pub(crate) history: J,
}

impl<J: HistoryJudge> WrittenPart<J> {
    ghost use Rattle.std.specs.Prelude.{◌≤◌, suc, ℕ, List};
    ghost use Rattle.vms_base.specs.Common.{IsHeader};
    ghost use Rattle.vms_script.specs.Common.{Segment};
    ghost use Rattle.vms_stream.specs.Common.{ClosesPhased, TakesPhased};
    ghost use Rattle.vms_command.specs.Common.{most_lines};
    ghost use Rattle.vms_certifying.specs.Certifying.{certifying};
    ghost use Rattle.vms_certifying.specs.JobStates.{made_by, shown_nothing};
    ghost use Rattle.vms_certifying.specs.WrittenParts.{InSomeWritten, InWritten};

    /// Takes the line of this number. One at fault stops the command, and its cause is appended. What was due in its
    /// place is noted.
    pub(crate) fn take_line(
        &mut self,
        verdicts: &mut Verdicts,
        number: u32,
        line: &[u8],
        out: &mut Vec<u8>,
        note: &mut Vec<u8>,
    ) -> Result<Option<Status>, Memory>
        requires within { number ≤ most_lines }
        requires stands { InSomeWritten J.Accepts number self.old }
        ensures { TakesPhased (certifying J.rules) (InWritten J.Accepts number self.old)
            (InWritten J.Accepts (suc number) self.new) (made_by verdicts.old) (made_by verdicts.new) line.now result
            out.old.items out.new.items }
    {
        match self.history.step(&self.header, line) {
            Ok(()) => {
                verdicts.add(Verdict::Taken)?;
                Ok(None)
            }
            Err(JudgeError::Fault(cause)) => {
                self.note_due(Some(line), note);
                write_fault_line(out, number, cause)?;
                verdicts.add(Verdict::Refused(cause))?;
                Ok(Some(Status::NotCertified))
            }
            Err(JudgeError::Memory) => Err(Memory),
        }
    }

    /// Comes to the end of the input, after which this would be the number of the next line. What was due there is
    /// noted where the history isn't whole.
    pub(crate) fn end(
        &mut self,
        verdicts: &mut Verdicts,
        number: u32,
        out: &mut Vec<u8>,
        note: &mut Vec<u8>,
    ) -> Result<Status, Memory>
        requires { InSomeWritten J.Accepts number self.old }
        ensures { ClosesPhased (certifying J.rules) (InWritten J.Accepts number self.old) shown_nothing
            (made_by verdicts.old) (made_by verdicts.new) result out.old.items out.new.items }
    {
        match self.history.finish(&self.header) {
            Some(Counted { phases, events }) => {
                write_certified_line(out, phases, events)?;
                verdicts.add(Verdict::Whole(phases, events))?;
                Ok(status_at_end(self.refused))
            }
            None => {
                self.note_due(None, note);
                write_fault_line(out, number, EventCause::Incomplete)?;
                verdicts.add(Verdict::Refused(EventCause::Incomplete))?;
                Ok(Status::NotCertified)
            }
        }
    }

    /// Notes what is due where a line is at fault, or at the end of the input: nothing where memory is wanting.
    fn note_due(&self, line: Option<&[u8]>, note: &mut Vec<u8>)
        requires header { IsHeader self.now.header }
        requires stands { (segments : List Segment) × (lines : List (List ℕ))
            × J.Accepts self.now.header segments lines self.now.history }
    {
        if self.history.push_due(&self.header, line, note).is_err() {
            note.clear();
        }
    }
}
