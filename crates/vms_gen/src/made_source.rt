use crate::Numbers;
use crate::made_lines::header_text;
use crate::spelling::LineText;
use crate::unmade::Unmade;
use std::marker::Model;
use vms_io::{Failed, Source};

/// Gives the text that is made from three numbers, each line of it when the one before was given. It takes no memory,
/// and never fails.
#[derive(Drop)]
pub struct MadeSource {
    unmade: Unmade,
    line: LineText,
    /// How many bytes of the line were given.
    given: usize,
    calls: u64,
}

impl Model for MadeSource {
    ghost use Rattle.std.specs.Prelude.{◌≤◌, ◌++◌, drop, flat_map, length};
    ghost use Rattle.vms_text.specs.Common.{sentence};
    ghost use Rattle.vms_gen.specs.Left.{Ungiven, lines_left};

    ghost Value = { Ungiven };

    ghost view = { λ src. record {
      left = drop src.given src.line.items ++ flat_map sentence (lines_left src.unmade);
      calls = src.calls;
    } };

    ghost invariant = { λ src. src.given ≤ length src.line.items };
}

ghost use Rattle.std.specs.Prelude.{◌≡◌, ◌<◌, ◌≤◌, [], ◌++◌, length, take, drop, min, Some, Ok, IfOk};
ghost use Rattle.std.specs.Io.KnownBytes.{ReadConsumes};
ghost use Rattle.vms_io.specs.Common.{CountsFaults, one_call_more};
ghost use Rattle.vms_gen.specs.Numbers.{InRange};
ghost use Rattle.vms_gen.specs.Texts.{made_text};

impl MadeSource {
    /// The source of the text of these numbers.
    pub fn make(numbers: Numbers) -> MadeSource
        requires { InRange numbers }
        ensures { result ≡ record { left = made_text numbers.seed numbers.cpus numbers.lines; calls = 0 } }
    {
        MadeSource {
            unmade: Unmade {
                cpus: numbers.cpus,
                state: numbers.seed,
                lines: Some(numbers.lines),
            },
            line: header_text(numbers.cpus),
            given: 0,
            calls: 0,
        }
    }

    /// Gives bytes of one line, and says how many: none only where no line is left.
    fn give(&mut self, buf: &mut [u8]) -> usize
        requires { 0 < length buf.old }
        ensures room { result ≤ length buf.new }
        ensures bytes { self.old.left ≡ take result buf.new ++ self.new.left }
        ensures after { drop result buf.new ≡ drop result buf.old }
        ensures end { result ≡ 0 → self.old.left ≡ [] }
        ensures same_calls { self.new.calls ≡ self.old.calls }
    {
        if self.given == self.line.len() {
            match self.unmade.next_line() {
                Some(line) => {
                    self.line = line;
                    self.given = 0;
                }
                None => return 0,
            }
        }
        let count = buf.len().min(self.line.len() - self.given);
        buf[..count].copy_from_slice(&self.line.as_slice()[self.given..self.given + count]);
        self.given += count;
        count
    }
}

impl Source for MadeSource {
    ghost remaining = { λ src. Some src.left };

    ghost faults = { λ _. 0 };

    ghost calls = { λ src. src.calls };

    fn read(&mut self, buf: &mut [u8]) -> Result<usize, Failed>
        requires { 0 < length buf.old }
        ensures size { result ≡ Ok (min (length buf.old) (length self.old.left)) }
        ensures room { IfOk result (λ n. n ≤ length buf.new) }
        ensures bytes { ReadConsumes (Some self.old.left) (Some self.new.left) result buf.new }
        ensures after { IfOk result (λ n. drop n buf.new ≡ drop n buf.old) }
        ensures left { self.new.left ≡ drop (length buf.old) self.old.left }
        ensures faults { CountsFaults 0 0 result }
        ensures calls { self.new.calls ≡ one_call_more self.old.calls }
    {
        self.calls = self.calls.saturating_add(1);
        let mut filled = 0;
        while filled < buf.len() {
            let count = self.give(&mut buf[filled..]);
            if count == 0 {
                break;
            }
            filled += count;
        }
        Ok(filled)
    }
}
