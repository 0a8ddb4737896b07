use crate::Wait;
use vms_answers::{Answer, write_answer};
use vms_base::{Header, Memory};
use vms_command::write_refused_line;
use vms_replay_phase::AnswerTaker;

/// What prints the lines of a phase that wait, in their order, as their answers come.
#[derive(Drop)]
pub struct WaitPrinter {
    /// What is printed so far.
    pub(crate) out: Vec<u8>,
    /// All lines that waited when the phase ended.
    pub(crate) waits: Vec<Wait>,
    /// How many of them are printed.
    pub(crate) next: usize,
}

impl WaitPrinter {
    ghost use Rattle.std.specs.Prelude.{◌≡◌, [], IfOk};
    ghost use Rattle.vms_world.specs.Common.{Header};
    ghost use Rattle.vms_replay.specs.Printing.{printed_by};

    /// Prints the lines that wait still, of which none has an answer any more. Hands back what is printed, and a list
    /// for the lines that wait next.
    pub(crate) fn end(self) -> Result<(Vec<u8>, Vec<Wait>), Memory>
        ensures text { IfOk result (λ ended. (header : Header) → ended.0.items ≡ printed_by header self []) }
        ensures none { IfOk result (λ ended. ended.1.items ≡ []) }
    {
        let WaitPrinter { out, waits, next } = self;
        let mut out = out;
        let mut waits = waits;
        write_refusals(&mut out, waits.as_slice(), next)?;
        waits.clear();
        Ok((out, waits))
    }
}

impl AnswerTaker for WaitPrinter {
    ghost use Rattle.vms_replay.specs.Printing.{Prints};

    ghost Takes = { Prints };

    fn take(&mut self, header: &Header, number: u32, answer: &Answer) -> Result<(), Memory> {
        'waits: while self.next < self.waits.len() {
            let wait = self.waits[self.next];
            self.next += 1;
            if write_wait(&mut self.out, header, wait, number, answer)? {
                return Ok(());
            }
        }
        Ok(())
    }
}

ghost use Rattle.std.specs.Prelude.{◌≡◌, ◌++◌, ◌∷◌, [], List, drop, if◌then◌else◌, IfOk, OnOk};
ghost use Rattle.vms_answers.specs.Common.{NumberedAnswer};
ghost use Rattle.vms_world.specs.Common.{Header};
ghost use Rattle.vms_replay.specs.Waits.{written};

/// Appends the line of one that waited, where the next answer is of the line of this number. Says whether it was that
/// line.
#[inline]
fn write_wait(
    out: &mut Vec<u8>,
    header: &Header,
    wait: Wait,
    number: u32,
    answer: &Answer,
) -> Result<bool, Memory>
    ensures { IfOk result (λ found. (waiting : List Wait) (later : List NumberedAnswer) → out.new.items
        ++ written header.now waiting (if found then later
        else record { number = number; answer = answer.now } ∷ later)
        ≡ out.old.items ++ written header.now (wait ∷ waiting)
        (record { number = number; answer = answer.now } ∷ later)) }
{
    match wait {
        Wait::Answer(line) => {
            if line != number {
                return Ok(false);
            }
            write_answer(out, header, number, answer)?;
            Ok(true)
        }
        Wait::Refused(cause, line) => {
            write_refused_line(out, line, cause)?;
            Ok(false)
        }
    }
}

/// Appends the lines from one on that waited, where no answer is left.
fn write_refusals(out: &mut Vec<u8>, waits: &[Wait], next: usize) -> Result<(), Memory>
    ensures { OnOk result ((header : Header) → out.new.items
        ≡ out.old.items ++ written header (drop next waits.now) []) }
{
    for index in next..waits.len() {
        write_refusal(out, waits[index])?;
    }
    Ok(())
}

/// Appends the line of one that waited, if it doesn't count.
fn write_refusal(out: &mut Vec<u8>, wait: Wait) -> Result<(), Memory>
    ensures { OnOk result ((header : Header) (waiting : List Wait) → out.new.items ++ written header waiting []
        ≡ out.old.items ++ written header (wait ∷ waiting) []) }
{
    match wait {
        Wait::Answer(_) => Ok(()),
        Wait::Refused(cause, line) => write_refused_line(out, line, cause),
    }
}
