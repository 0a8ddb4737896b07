ghost use Rattle.std.specs.Prelude.{List, Option, ℕ};
ghost use Rattle.vms_stream.specs.Jobs.{ClosesPhased, TakesPhased};
ghost use Rattle.vms_stream.specs.PhasedBehaviors.{PhasedBehavior};

use crate::Status;
use vms_base::Memory;

/// A command over the lines of its input, whose phases an engine makes. Its behavior says what it prints by their
/// outcomes, and where and how it ends.
pub trait Job {
    /// What makes the phases.
    type Engine;

    ghost State: { Type 0 };

    ghost Outcome: { Type 0 };

    ghost behavior: { PhasedBehavior State Outcome };

    // The outcomes that the engine made so far, or none where it keeps none.
    ghost made: { Self.Engine → Option (List Outcome) };

    // The job stands after lines that bring it to this state.
    ghost Stands: { Self → State → Type 0 };

    // What the job shows of the state at the end of the input, and of the outcome of the phase that ends there.
    ghost Shows: { State → Option Outcome → Type 0 };

    /// Takes a line, which is without its newline, and appends what it prints. Says why the command stops at the
    /// line, if it does. A phase that ends at the line is made before, and one that fails appends nothing to what was
    /// made.
    fn take_line(
        &mut self,
        engine: &mut Self::Engine,
        line: &[u8],
        out: &mut Vec<u8>,
    ) -> Result<Option<Status>, Memory>
        requires { (s : State) × Stands self.old s }
        ensures { TakesPhased behavior (Stands self.old) (Stands self.new) (made engine.old) (made engine.new)
            line.now result out.old.items out.new.items };

    /// Comes to the end of the input, where a phase may end too, appends what is printed there, and says how the
    /// command ends.
    fn end(&mut self, engine: &mut Self::Engine, out: &mut Vec<u8>) -> Result<Status, Memory>
        requires { (s : State) × Stands self.old s }
        ensures { ClosesPhased behavior (Stands self.old) Shows (made engine.old) (made engine.new)
            result out.old.items out.new.items };
}
