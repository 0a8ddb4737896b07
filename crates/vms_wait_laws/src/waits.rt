ghost use Rattle.vms_command.specs.Common.{following};
ghost use Rattle.vms_groups.specs.Common.{groups_texts};
ghost use Rattle.vms_replay.specs.Common.{replaying};
ghost use Rattle.vms_wait_laws.specs.Waits.{AskInsidePhases, WaitInsidePhases};

use crate::OrderedTexts;
use vms_command::Body;
use vms_replay::Engine;

/// The law that outside a phase no text is held back, for every command whose lines ask only inside a phase: what waits
/// for the outcome of a phase waits only while the phase is open.
pub fn texts_wait_inside_phases<T: OrderedTexts>()
    ensures { AskInsidePhases T.texts → WaitInsidePhases T.texts }
{}

/// The same of each command on a trace.
pub fn bodies_wait_inside_phases<B: Body>()
    ensures { AskInsidePhases (following B.command) → WaitInsidePhases (following B.command) }
{}

/// The same of `replay` and `run`, whose lines do: between two phases all is printed that the lines above print.
pub fn traces_wait_inside_phases<E: Engine>()
    ensures { WaitInsidePhases (following (replaying E.Makes)) }
{}

/// The same of `groups`: between two phases all is printed that the lines above print.
pub fn groups_wait_inside_phases()
    ensures { WaitInsidePhases groups_texts }
{}
