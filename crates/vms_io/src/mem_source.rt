use crate::tallies::Calls;
use crate::{Failed, Source};
use std::marker::Model;

/// Gives the bytes of a vector, some of them a call. It fails at the calls that it was told.
#[derive(Drop)]
pub struct MemSource {
    bytes: Vec<u8>,
    given: usize,
    piece: usize,
    calls: Calls,
}

impl Model for MemSource {
    ghost use Rattle.std.specs.Prelude.{drop, vec_items, vec_len};
    ghost use Rattle.vms_io.specs.InMemory.{Supply, Placed};

    ghost Value = { Supply };

    ghost view = { λ src. record {
      left = drop src.given (vec_items src.bytes);
      piece = src.piece;
      calls =
          src.calls;
    } };

    ghost invariant = { λ src. Placed src.given (vec_len src.bytes) src.piece };
}

ghost use Rattle.std.specs.Prelude.{◌≡◌, ◌↔◌, ◌<◌, ◌≤◌, length, take, drop, Some, IsErr, IfOk, OnErr};
ghost use Rattle.std.specs.Io.KnownBytes.{ReadConsumes};
ghost use Rattle.vms_io.specs.Faults.{CountsFaults, FailsNext, one_call_more};
ghost use Rattle.vms_io.specs.InMemory.{after_read, after_read_fault, read_size};

impl MemSource {
    /// A source of these bytes that gives `piece` bytes a call at most. The calls whose numbers, from 1, stand in
    /// `fails` fail.
    pub fn make(bytes: Vec<u8>, piece: usize, fails: Vec<u32>) -> MemSource
        requires { 1 ≤ piece }
        ensures { result ≡ record {
          left = bytes.items;
          piece = piece;
          calls = record { fails = fails.items; made = 0; failed = 0 };
        } }
    {
        MemSource {
            bytes,
            given: 0,
            piece,
            calls: Calls::make(fails),
        }
    }
}

impl Source for MemSource {
    ghost remaining = { λ src. Some src.left };

    ghost faults = { λ src. src.calls.failed };

    ghost calls = { λ src. src.calls.made };

    fn read(&mut self, buf: &mut [u8]) -> Result<usize, Failed>
        requires { 0 < length buf.old }
        ensures room { IfOk result (λ n. n ≤ length buf.new) }
        ensures bytes { ReadConsumes (Some self.old.left) (Some self.new.left) result buf.new }
        ensures faults { CountsFaults self.old.calls.failed self.new.calls.failed result }
        ensures calls { self.new.calls.made ≡ one_call_more self.old.calls.made }
        ensures fails { IsErr result ↔ FailsNext self.old.calls }
        ensures size { IfOk result (λ n. n ≡ read_size self.old (length buf.old)) }
        ensures after { IfOk result (λ n. drop n buf.new ≡ drop n buf.old) }
        ensures ok { IfOk result (λ n. self.new ≡ after_read n self.old) }
        ensures err { OnErr result (self.new ≡ after_read_fault self.old) }
    {
        if self.calls.next() {
            return Err(self.calls.fault());
        }
        let count = buf.len().min(self.piece).min(self.bytes.len() - self.given);
        buf[..count].copy_from_slice(&self.bytes[self.given..self.given + count]);
        self.given += count;
        Ok(count)
    }
}
