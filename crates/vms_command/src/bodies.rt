ghost use Rattle.std.specs.Prelude.{◌≡◌, ℕ, ◌≤◌, ◌++◌, [], List, Option, IfOk, OnOk};
ghost use Rattle.vms_base.specs.Common.{IsHeader};
ghost use Rattle.vms_base.specs.declared.headers.Header.{Header};
ghost use Rattle.vms_command.specs.Bodies.{ClosesBody, BodyTakes, SomeEnd, SomeLine};
ghost use Rattle.vms_command.specs.Commands.{TraceCommand};
ghost use Rattle.vms_command.specs.Limits.{most_lines};
ghost use Rattle.vms_command.specs.Lines.{LinesAbove, nothing_above};
ghost use Rattle.vms_header.specs.Common.{IsWritable};
ghost use Rattle.vms_stream.specs.Common.{Text};
ghost use Rattle.vms_script.specs.Common.{IsInOneSpelling};

use std::alloc::Global;
use vms_base::{Header, Memory};
use vms_script::JudgedLine;
use vms_stream::Status;

/// What a command does with the body of a trace, after a header that was accepted.
pub trait Body: Drop + Sized {
    /// What makes the phases. A command that makes none has `()`.
    type Engine;

    ghost Kept: { Type 0 };

    ghost Outcome: { Type 0 };

    ghost command: { TraceCommand Kept Outcome };

    // The outcomes that the engine made so far, or none where it keeps none.
    ghost made: { Self.Engine → Option (List Outcome) };

    // The body stands before the line of this number, after lines that came to this, of which it keeps this, and these
    // texts wait for the outcome of the open phase.
    ghost Stands: { Self → Header → ℕ → LinesAbove → Kept → List (Text Outcome) → Type 0 };

    // What is shown at the end of a trace, by the outcome of the phase that ends there.
    ghost Shows: { Header → LinesAbove → Kept → Option Outcome → Type 0 };

    /// Begins after a header, and appends what is printed there.
    fn begin(alloc: Global, header: &Header, out: &mut Vec<u8>) -> Result<Self, Memory>
        requires { IsWritable header.now }
        ensures stands { IfOk result (λ body. (n : ℕ) → 1 ≤ n →
            Stands body header.now n nothing_above (command.begins header.now) []) }
        ensures prints { OnOk result (out.new.items ≡ out.old.items ++ command.opens header.now) };

    /// Takes the line of this number, with what was judged of it, and appends what it prints. A phase that ends at the
    /// line is made before, and one that fails appends nothing to what was made.
    fn take_line(
        &mut self,
        engine: &mut Self::Engine,
        header: &Header,
        number: u32,
        judged: &JudgedLine<'_>,
        out: &mut Vec<u8>,
    ) -> Result<(), Memory>
        requires header { IsHeader header.now }
        requires line { SomeLine (Stands self.old) header.now number judged.now.said }
        requires most { number ≤ most_lines }
        requires spelled { IsInOneSpelling header.now judged.now }
        ensures { BodyTakes command (Stands self.old) (Stands self.new) (made engine.old)
            (made engine.new) header.now
            number judged.now.said result out.old.items out.new.items };

    /// Comes to the end of the trace, where the open phase ends, appends what is printed there, and says how the
    /// command ends. So many lines of the trace count, and so many were refused.
    fn end(
        &mut self,
        engine: &mut Self::Engine,
        header: &Header,
        accepted: u32,
        refused: u32,
        out: &mut Vec<u8>,
    ) -> Result<Status, Memory>
        requires header { IsHeader header.now }
        requires body { SomeEnd (Stands self.old) header.now accepted refused }
        ensures { ClosesBody command (Stands self.old) Shows (made engine.old) (made engine.new) header.now accepted
            refused result out.old.items out.new.items };
}
