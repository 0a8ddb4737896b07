ghost use Rattle.std.specs.Prelude.{◌≡◌, ◌⊎◌, None, Some, map, string_bytes};
ghost use Rattle.vms_stream.specs.Common.{FaultsOfSink};
ghost use Rattle.vms_tool.specs.Answers.{AnswersUnder, ReadsNothing, ShowsUsage};
ghost use Rattle.vms_tool.specs.Naming.{command_of};

use crate::naming::{Command, named_by};
use crate::{
    Gate, Histories, Status, tool_certify, tool_check, tool_gen, tool_groups, tool_record,
    tool_replay, tool_run,
};
use std::alloc::Global;
use std::sync::Wait;
use std::thread::Threads;
use vms_io::{Sink, Source, write_all};

/// The line for words that name no command.
const USAGE: &[u8] =
    b"usage: check | replay | run | gen SEED CPUS LINES | groups | record | certify\n";

/// Does what the words say: they are those after the program's name. With `run`, `gen` and `groups` the lanes of a
/// phase run on threads, which call the gate before each line, and the histories of each phase are appended to those
/// that stand. With `certify` what was due where a history is refused is written to the notes: no clause speaks of it.
pub fn tool<R: Threads + Wait + Sync, G: Gate, S: Source, K: Sink, N: Sink>(
    rt: &R,
    alloc: Global,
    words: &[String],
    src: &mut S,
    out: &mut K,
    notes: &mut N,
    gate: &G,
    histories: &mut Histories,
) -> Status
    ensures answers { AnswersUnder (map (λ word. string_bytes word) words.now) histories.old histories.new S.remaining
        S.faults S.calls K.written K.faults K.calls src.old src.new out.old out.new result }
    ensures unread { ReadsNothing (command_of (map (λ word. string_bytes word) words.now)) → src.new ≡ src.old }
{
    match named_by(words) {
        Some(Command::Check) => tool_check(alloc, src, out),
        Some(Command::Replay) => tool_replay(alloc, src, out),
        Some(Command::Run) => tool_run(rt, alloc, src, out, gate, &mut histories.phases),
        Some(Command::Gen(numbers)) => {
            tool_gen(rt, alloc, numbers, out, gate, &mut histories.phases)
        }
        Some(Command::Groups) => tool_groups(rt, alloc, src, out, gate, &mut histories.groups),
        Some(Command::Record) => tool_record(alloc, src, out),
        Some(Command::Certify) => tool_certify(alloc, src, out, notes),
        None => show_usage(out),
    }
}

/// Writes the usage line.
fn show_usage<K: Sink>(out: &mut K) -> Status
    ensures usage { ShowsUsage (K.written out.old) (K.written out.new) result }
    ensures writes { FaultsOfSink K.written K.faults K.calls result out.old out.new }
{
    match write_all(out, USAGE) {
        Ok(()) => Status::Words,
        Err(_) => Status::WriteFault,
    }
}
