use crate::{Failed, ReadError, Source};
use memchr::memrchr;
use std::alloc::Global;
use std::marker::Model;
use vms_base::Memory;

/// The least room of a buffer, in bytes.
const LEAST_ROOM: usize = 65536;

/// The bytes that were read and not dropped yet.
#[derive(Drop)]
pub struct ReadBuffer {
    room: Vec<u8>,
    held: usize,
    /// How many of the first bytes were searched. No newline is among them.
    searched: usize,
}

impl Model for ReadBuffer {
    ghost use Rattle.std.specs.Prelude.{ℕ, List, take, vec_len};
    ghost use Rattle.vms_io.specs.Reading.{Roomy, Searched};

    ghost Value = { List ℕ };

    ghost view = { λ b. take b.held b.room.items };

    ghost invariant = { λ b. Roomy b.held (vec_len b.room) × Searched b.room.items b.held b.searched };
}

ghost use Rattle.std.specs.Prelude.{◌≡◌, ℕ, ◌+◌, ◌<◌, ◌≤◌, max, List, [], length, take, drop, vec_len, IfOk, OnOk};
ghost use Rattle.std.specs.Prelude.{OnErr, IsErrOf};
ghost use Rattle.std.specs.Io.KnownBytes.{Keeps, ReadConsumes};
ghost use Rattle.vms_io.specs.Faults.{CountsFaults, LastFails, one_call_more};
ghost use Rattle.vms_io.specs.Reading.{Gets, Roomy, WholeLines};

impl ReadBuffer {
    /// A buffer that holds nothing, with room for 64 KiB.
    pub fn make(alloc: Global) -> Result<ReadBuffer, Memory>
        ensures { IfOk result (λ buffer. buffer ≡ []) }
    {
        let room = vec![in alloc; 0; LEAST_ROOM]?;
        Ok(ReadBuffer {
            room,
            held: 0,
            searched: 0,
        })
    }

    pub fn bytes(&self) -> &[u8]
        ensures { result.now ≡ self.now }
    {
        &self.room[..self.held]
    }

    /// How many of the bytes are whole lines: those up to the last newline, with it. Bytes without a newline are
    /// searched once.
    pub fn whole_lines(&mut self) -> usize
        ensures lines { WholeLines self.old result }
        ensures same { self.new ≡ self.old }
    {
        let found = last_line_end(&self.room[self.searched..self.held]);
        if found > 0 {
            return self.searched + found;
        }
        self.searched = self.held;
        0
    }

    /// Forgets the first `count` bytes, and moves the others to the front of the room. Forgetting none moves none.
    pub fn drop_front(&mut self, count: usize)
        requires { count ≤ length self.old }
        ensures { self.new ≡ drop count self.old }
    {
        if count == 0 {
            return;
        }
        self.room.copy_within(count..self.held, 0);
        self.held -= count;
        self.searched = self.searched.saturating_sub(count);
    }

    /// Reads once, after the bytes that are held, and says how many bytes more they are: 0 at the end of the
    /// input. A buffer that is full first gets twice its room.
    pub fn read_more<S: Source>(&mut self, src: &mut S) -> Result<usize, ReadError>
        ensures ok { IfOk result (Gets self.old self.new (S.remaining src.old) (S.remaining src.new)) }
        ensures err { OnErr result (self.new ≡ self.old) }
        ensures unread { OnErr result (Keeps (S.remaining src.old) (S.remaining src.new)) }
        ensures faults { OnOk result (S.faults src.new ≡ S.faults src.old) }
        ensures calls { OnOk result (S.calls src.new ≡ one_call_more (S.calls src.old)) }
        ensures failed_call { IsErrOf result ReadError.Failed → S.calls src.new ≡ one_call_more (S.calls src.old) }
        ensures failed { IsErrOf result ReadError.Failed → LastFails S.remaining S.faults S.calls src.old src.new }
        ensures memory { IsErrOf result ReadError.Memory → src.new ≡ src.old }
        ensures full { IsErrOf result ReadError.Memory → 65536 ≤ length self.old }
    {
        make_room(&mut self.room, self.held)?;
        let taken = read_into(src, self.room.as_mut_slice(), self.held)?;
        self.held += taken;
        Ok(taken)
    }
}

/// How many of these bytes are whole lines.
pub fn last_line_end(bytes: &[u8]) -> usize
    ensures { WholeLines bytes.now result }
{
    match memrchr(b'\n', bytes) {
        Some(newline) => newline + 1,
        None => 0,
    }
}

/// Doubles the room where all of it is held.
fn make_room(room: &mut Vec<u8>, held: usize) -> Result<(), Memory>
    requires roomy { Roomy held (vec_len room.old) }
    ensures ok { OnOk result (held < vec_len room.new) }
    ensures kept { take held room.new.items ≡ take held room.old.items }
    ensures roomy { Roomy held (vec_len room.new) }
    ensures err { OnErr result (room.new.items ≡ room.old.items) }
    ensures full { OnErr result (held ≡ vec_len room.old) }
{
    if held == room.len() {
        let doubled = held.checked_mul(2).ok_or(Memory)?;
        room.resize(doubled, 0)?;
    }
    Ok(())
}

/// Reads once into `room`, after the first `held` bytes, as many as are held or 64 KiB at most.
fn read_into<S: Source>(src: &mut S, room: &mut [u8], held: usize) -> Result<usize, Failed>
    requires { held < length room.old }
    ensures front { take held room.new ≡ take held room.old }
    ensures fits { IfOk result (λ n. held + n ≤ length room.new) }
    ensures bounded { IfOk result (λ n. n ≤ max 65536 held) }
    ensures bytes { ReadConsumes (S.remaining src.old) (S.remaining src.new) result (drop held room.new) }
    ensures faults { CountsFaults (S.faults src.old) (S.faults src.new) result }
    ensures calls { S.calls src.new ≡ one_call_more (S.calls src.old) }
{
    let end = held + (room.len() - held).min(held.max(LEAST_ROOM));
    src.read(&mut room[held..end])
}
