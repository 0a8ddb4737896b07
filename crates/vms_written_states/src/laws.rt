ghost use Rattle.std.specs.Prelude.{◌≡◌, List, ℕ, Ok, map};
ghost use Rattle.vms_core.specs.Pages.{History, state_after};
ghost use Rattle.vms_text.specs.declared.acts.Boundary.{Boundary as BoundaryOf};
ghost use Rattle.vms_text.specs.declared.acts.Line.TheVariants.{Boundary};
ghost use Rattle.vms_world.specs.Common.{Header, IsHeader, GivesThresholds, AreAnswers, refreshed, bare_pages, Item};
ghost use Rattle.vms_world.specs.Common.{State, Start, first_start, start_at_end, start_past, line_of, Fits, IsLineOf};
ghost use Rattle.vms_world.specs.Common.{allowed_from, MayCross, facts_of, settled};
ghost use Rattle.vms_written.specs.Common.{CrossesPages, IsWrittenPhase};
ghost use Rattle.vms_written_states.specs.PageStarts.{IsPageStart};

use vms_calls::ThresholdRules;

/// The page counters that a run begins with are those of the first start. A written phase of lines that fit leads from
/// page counters of a start to those of what the lines make of it. So does a boundary line that counts, and it may be
/// crossed.
pub fn written_phases_keep_starts<R: ThresholdRules>()
    ensures first { (header : Header) (zones : List ℕ) → IsHeader header → GivesThresholds R.normal →
        AreAnswers header R.normal header.layout.cpus zones →
        IsPageStart header first_start (refreshed header zones (bare_pages header)) }
    ensures phase { (header : Header) (start : Start) (s : State) (items : List Item) (h : History) →
        IsPageStart header start s → Fits header start items →
        IsWrittenPhase header R.pressure R.normal s items h →
        IsPageStart header (start_at_end start (map line_of items)) (settled (state_after (facts_of header s) h)) }
    ensures may { (header : Header) (start : Start) (s : State) (b : BoundaryOf) → IsPageStart header start s →
        IsLineOf header (Boundary b) → allowed_from header start (Boundary b) ≡ Ok (Boundary b) →
        MayCross header.layout s b }
    ensures boundary { (header : Header) (start : Start) (s next : State) (b : BoundaryOf) →
        GivesThresholds R.normal → IsPageStart header start s → IsLineOf header (Boundary b) →
        allowed_from header start (Boundary b) ≡ Ok (Boundary b) → CrossesPages header R.normal b s next →
        IsPageStart header (start_past (Boundary b) start) next }
{}
