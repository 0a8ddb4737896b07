ghost use Rattle.std.specs.Prelude.{◌↔◌, List, ◌++◌};
ghost use Rattle.vms_core.specs.Pages.{History};
ghost use Rattle.vms_world.specs.Common.{Header, Item, State};
ghost use Rattle.vms_written.specs.Common.{BeginsWrittenPhase, IsWrittenPhase};
ghost use Rattle.vms_phase_checks.specs.Kept.{AreOver, KeepsToLines};

use crate::LaneWalk;

/// The first events of a written phase keep to its lines. So where events don't, no further ones make them a phase of
/// these lines. Events that keep to lines begin a phase of them.
pub fn written_phases_keep_to_lines<W: LaneWalk>()
    ensures first { (header : Header) (s : State) (items : List Item) (more h : History) →
        IsWrittenPhase header W.pressure W.normal s items (more ++ h) →
        KeepsToLines header W.pressure W.normal s items h }
    ensures begin { (header : Header) (s : State) (items : List Item) (h : History) →
        KeepsToLines header W.pressure W.normal s items h →
        BeginsWrittenPhase header W.pressure W.normal s items h }
{}

/// Events that keep to the lines of a phase are one exactly if a pass of each lane with lines has begun, and every pass
/// has ended.
pub fn kept_phases_are_written<W: LaneWalk>()
    ensures { (header : Header) (s : State) (items : List Item) (h : History) →
        KeepsToLines header W.pressure W.normal s items h →
        IsWrittenPhase header W.pressure W.normal s items h ↔ AreOver header items h }
{}
