use crate::tallies::Calls;
use crate::{Failed, Sink};
use std::alloc::Global;
use std::marker::Model;
use vms_base::Memory;

/// Keeps what is written in memory that is reserved at the start. It fails once that is full, and at the calls that it
/// was told.
#[derive(Drop)]
pub struct MemSink {
    room: Vec<u8>,
    used: usize,
    piece: usize,
    calls: Calls,
}

impl Model for MemSink {
    ghost use Rattle.std.specs.Prelude.{take, vec_items, vec_len};
    ghost use Rattle.vms_io.specs.InMemory.{Store, Placed};

    ghost Value = { Store };

    ghost view = { λ out. record {
      written = take out.used (vec_items out.room);
      room = vec_len out.room;
      piece =
          out.piece;
      calls = out.calls;
    } };

    ghost invariant = { λ out. Placed out.used (vec_len out.room) out.piece };
}

ghost use Rattle.std.specs.Prelude.{◌≡◌, ◌⊎◌, ◌↔◌, ◌<◌, ◌≤◌, [], length, take, Some, IsErr, IfOk, OnErr};
ghost use Rattle.std.specs.Io.KnownBytes.{WriteAppends};
ghost use Rattle.vms_io.specs.Faults.{CountsFaults, FailsNext, one_call_more};
ghost use Rattle.vms_io.specs.InMemory.{IsFull, after_write, after_write_fault, write_size};

impl MemSink {
    /// A sink with room for `room` bytes that takes `piece` bytes a call at most. The calls whose numbers, from 1,
    /// stand in `fails` fail, and every call once the room is used up.
    pub fn make(
        alloc: Global,
        piece: usize,
        fails: Vec<u32>,
        room: usize,
    ) -> Result<MemSink, Memory>
        requires { 1 ≤ piece }
        ensures { IfOk result (λ out. out ≡ record {
          written = [];
          room = room;
          piece = piece;
          calls = record { fails = fails.items; made = 0; failed = 0 };
        }) }
    {
        let room = vec![in alloc; 0; room]?;
        Ok(MemSink {
            room,
            used: 0,
            piece,
            calls: Calls::make(fails),
        })
    }

    /// What was written.
    pub fn bytes(&self) -> &[u8]
        ensures { result.now ≡ self.now.written }
    {
        &self.room[..self.used]
    }
}

impl Sink for MemSink {
    ghost written = { λ out. Some out.written };

    ghost faults = { λ out. out.calls.failed };

    ghost calls = { λ out. out.calls.made };

    fn write(&mut self, bytes: &[u8]) -> Result<usize, Failed>
        requires { 0 < length bytes.now }
        ensures some { IfOk result (λ n. (1 ≤ n) × (n ≤ length bytes.now)) }
        ensures bytes { WriteAppends (Some self.old.written) (Some self.new.written) result bytes.now }
        ensures faults { CountsFaults self.old.calls.failed self.new.calls.failed result }
        ensures calls { self.new.calls.made ≡ one_call_more self.old.calls.made }
        ensures fails { IsErr result ↔ (FailsNext self.old.calls ⊎ IsFull self.old) }
        ensures size { IfOk result (λ n. n ≡ write_size self.old (length bytes.now)) }
        ensures ok { IfOk result (λ n. self.new ≡ after_write (take n bytes.now) self.old) }
        ensures err { OnErr result (self.new ≡ after_write_fault self.old) }
    {
        let left = self.room.len() - self.used;
        if self.calls.next() || left == 0 {
            return Err(self.calls.fault());
        }
        let count = bytes.len().min(self.piece).min(left);
        self.room[self.used..self.used + count].copy_from_slice(&bytes[..count]);
        self.used += count;
        Ok(count)
    }
}
