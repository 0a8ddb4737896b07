ghost use Rattle.std.specs.Prelude.{◌≡◌, ◌∷◌, [], IfSome, map, string_bytes};
ghost use Rattle.vms_tool.specs.Naming.{HasNumbers, command_of};

use vms_gen::{Numbers, numbers_named};

/// A command of the program.
#[derive(Clone, Copy, Debug, PartialEq, Eq)]
pub enum Command {
    /// Writes a trace in its one spelling.
    Check,
    /// Replays a trace in file order.
    Replay,
    /// Runs a trace, each lane of a phase on a thread of its own.
    Run,
    /// Runs the trace that these numbers make.
    Gen(Numbers),
    /// Runs a trace of a tree of groups, each lane of a phase on a thread of its own.
    Groups,
    /// Writes a trace and its history in file order.
    Record,
    /// Judges the history that is written after a trace.
    Certify,
}

/// The command that the words name.
pub(crate) fn named_by(words: &[String]) -> Option<Command>
    ensures named { result ≡ command_of (map (λ word. string_bytes word) words.now) }
    ensures numbers { IfSome result HasNumbers }
{
    match words {
        [word] => named(word.as_str()),
        _ => numbers_named(words).map(Command::Gen),
    }
}

/// The command of one word.
fn named(word: &str) -> Option<Command>
    ensures named { result ≡ command_of (word.now ∷ []) }
    ensures numbers { IfSome result HasNumbers }
{
    if word == "check" {
        Some(Command::Check)
    } else if word == "replay" {
        Some(Command::Replay)
    } else if word == "run" {
        Some(Command::Run)
    } else if word == "groups" {
        Some(Command::Groups)
    } else if word == "record" {
        Some(Command::Record)
    } else if word == "certify" {
        Some(Command::Certify)
    } else {
        None
    }
}
