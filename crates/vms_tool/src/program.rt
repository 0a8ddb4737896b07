ghost use Rattle.std.specs.Prelude.{◌≡◌, IfOk, OnErr, drop};
ghost use Rattle.std.specs.Vec.Iter.{into_iter_items};
ghost use Rattle.vms_tool.specs.Programs.{AreWordsOf, MayLackWords, RunsProgram};

use crate::exits::exit_code;
use crate::{Gate, Histories, Status, tool};
use std::alloc::Global;
use std::env::Args;
use std::io;
use std::io::ErrorKind;
use std::process::ExitCode;
use std::sync::Wait;
use std::thread::Threads;
use vms_base::Memory;
use vms_io::{Sink, Source};

/// Runs the program with its arguments as the system gives them: does what the words after the program's name say, and
/// gives the exit code of how that ended. Where there is no memory for the words it does nothing. What was due where
/// `certify` refuses a history is written to the notes: no clause speaks of it.
pub fn run_program<R: Threads + Wait + Sync, G: Gate, S: Source, K: Sink, N: Sink>(
    rt: &R,
    alloc: Global,
    args: io::Result<Args>,
    src: &mut S,
    out: &mut K,
    notes: &mut N,
    gate: &G,
    histories: &mut Histories,
) -> ExitCode
    ensures { RunsProgram args histories.old histories.new S.remaining S.faults S.calls K.written K.faults K.calls
        src.old src.new out.old out.new result }
{
    match words_of(alloc, args) {
        Ok(words) => {
            let status = tool(
                rt,
                alloc,
                words.as_slice(),
                src,
                out,
                notes,
                gate,
                histories,
            );
            exit_code(status)
        }
        Err(Memory) => exit_code(Status::Memory),
    }
}

/// The words of the program. Arguments that aren't UTF-8 have none, and so name no command.
fn words_of(alloc: Global, args: io::Result<Args>) -> Result<Vec<String>, Memory>
    ensures words { IfOk result (λ words. AreWordsOf args words.items) }
    ensures memory { OnErr result (MayLackWords args) }
{
    match args {
        Ok(args) => after_name(alloc, args),
        Err(error) if error.kind() == ErrorKind::OutOfMemory => Err(Memory),
        Err(_) => Ok(Vec::new(alloc)),
    }
}

/// The words after the program's name, which is the first argument.
fn after_name(alloc: Global, args: Args) -> Result<Vec<String>, Memory>
    ensures { IfOk result (λ words. words.items ≡ drop 1 (into_iter_items args)) }
{
    Ok(args.skip(1).collect(alloc)?)
}
