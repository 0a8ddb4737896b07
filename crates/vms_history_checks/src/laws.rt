ghost use Rattle.std.specs.Prelude.{◌≡◌, List, ◌∷◌, Option, Some, reverse};
ghost use Rattle.vms_core.specs.Pages.{History};
ghost use Rattle.vms_world.specs.Common.{Header, IsHeader, Segment, first_start};
ghost use Rattle.vms_written.specs.Common.{IsWrittenHistory};
ghost use Rattle.vms_written_lines.specs.declared.lines.WrittenLine.{WrittenLine};
ghost use Rattle.vms_phase_checks.specs.declared.faults.EventCause.{EventCause};
ghost use Rattle.vms_history_checks.specs.Accepts.{IsLineFault};
ghost use Rattle.vms_history_checks.specs.Bounds.{MayStandInTurn};
ghost use Rattle.vms_history_checks.specs.Leads.{BeginsHistory};
ghost use Rattle.vms_history_checks.specs.Said.{with_lines, with_said};

use vms_phase_checks::LaneWalk;

/// A line is at fault with one cause, and no line that may be taken is at fault.
pub fn lines_have_one_verdict<W: LaneWalk>()
    ensures cause { (header : Header) (segments : List Segment) (hs : List History) (said : Option WrittenLine)
        (one other : EventCause) → IsHeader header → MayStandInTurn header first_start segments →
        IsLineFault W.pressure W.normal header segments hs said one →
        IsLineFault W.pressure W.normal header segments hs said other → one ≡ other }
    ensures taken { (header : Header) (segments : List Segment) (hs next : List History) (said : Option WrittenLine)
        (cause : EventCause) → IsHeader header → MayStandInTurn header first_start segments →
        with_said said hs ≡ Some next → BeginsHistory header W.pressure W.normal segments next →
        ¬ IsLineFault W.pressure W.normal header segments hs said cause }
{}

/// A fault is final: whatever lines follow one at fault, the lists aren't a written history.
pub fn faults_are_final<W: LaneWalk>()
    ensures { (header : Header) (segments : List Segment) (hs : List History) (said : Option WrittenLine)
        (cause : EventCause) (more : List (Option WrittenLine)) (all : List History) →
        IsHeader header → MayStandInTurn header first_start segments →
        IsLineFault W.pressure W.normal header segments hs said cause → with_lines (said ∷ more) hs ≡ Some all →
        ¬ IsWrittenHistory header W.pressure W.normal segments (reverse all) }
{}
