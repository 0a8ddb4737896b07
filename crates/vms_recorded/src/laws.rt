ghost use Rattle.std.specs.Prelude.{◌≡◌, ◌++◌, ◌∷◌, [], List, Ok, map, ℕ};
ghost use Rattle.vms_core.specs.Pages.{History, state_after};
ghost use Rattle.vms_text.specs.declared.acts.Boundary.{Boundary as BoundaryOf};
ghost use Rattle.vms_text.specs.declared.acts.Line.TheVariants.{Boundary};
ghost use Rattle.vms_phase_lines.specs.Common.{IsPhaseInOrder};
ghost use Rattle.vms_own_acts.specs.Common.{IsExactly};
ghost use Rattle.vms_world.specs.Common.{AreAnswers, Between, Fits, Header, IsHeader, IsLineOf, Item, Phase, Segment};
ghost use Rattle.vms_world.specs.Common.{Start, State, allowed_from, bare_pages, facts_of, first_start, line_of};
ghost use Rattle.vms_world.specs.Common.{normal_threshold_of, pressure_threshold_of, refreshed, settled, start_at_end};
ghost use Rattle.vms_world.specs.Common.{start_past};
ghost use Rattle.vms_written.specs.Common.{CrossesPages, IsWrittenHistory};
ghost use Rattle.vms_recorded.specs.Histories.{HasRecorded, IsRecordedHistory, history_lines, phase_lines};

use vms_file_order::{PageLines, file_order_makes_lines};
use vms_own_acts::ExactRules;
use vms_written_states::written_phases_keep_starts;

/// A recorded history begins with the page counters that a run begins with. It goes on with a phase of lines that fit,
/// in their order, and with a boundary line that counts. Wherever it has come to, it is a recorded history of the
/// segments so far. The lines of a phase more stand after the others.
pub fn recorded_histories_go_on()
    ensures first { (header : Header) (zones : List ℕ) → IsHeader header →
        AreAnswers header (IsExactly normal_threshold_of) header.layout.cpus zones →
        HasRecorded header [] [] first_start (refreshed header zones (bare_pages header)) }
    ensures phase { (header : Header) (segments : List Segment) (hs : List History) (start : Start) (s : State)
        (items : List Item) (h : History) → HasRecorded header segments hs start s → Fits header start items →
        IsPhaseInOrder header s items h → HasRecorded header (segments ++ Phase items ∷ []) (hs ++ h ∷ [])
        (start_at_end start (map line_of items)) (settled (state_after (facts_of header s) h)) }
    ensures boundary { (header : Header) (segments : List Segment) (hs : List History) (start : Start)
        (s next : State) (number : ℕ) (b : BoundaryOf) → HasRecorded header segments hs start s →
        IsLineOf header (Boundary b) → allowed_from header start (Boundary b) ≡ Ok (Boundary b) →
        CrossesPages header (IsExactly normal_threshold_of) b s next →
        HasRecorded header (segments ++ Between number b ∷ []) hs (start_past (Boundary b) start) next }
    ensures recorded { (header : Header) (segments : List Segment) (hs : List History) (start : Start) (s : State) →
        HasRecorded header segments hs start s → IsRecordedHistory header segments hs }
    ensures lines { (hs : List History) (h : History) →
        history_lines (hs ++ h ∷ []) ≡ history_lines hs ++ phase_lines h }
{
    file_order_makes_lines::<PageLines<ExactRules>>();
    written_phases_keep_starts::<ExactRules>();
}

/// A recorded history is a written history of its segments, by the kernel's rules of thresholds.
pub fn recorded_histories_are_written()
    ensures { (header : Header) (segments : List Segment) (hs : List History) →
        IsRecordedHistory header segments hs → IsWrittenHistory header (IsExactly pressure_threshold_of)
        (IsExactly normal_threshold_of) segments hs }
{
    file_order_makes_lines::<PageLines<ExactRules>>();
}
