ghost use Rattle.std.specs.Prelude.{◌≡◌, ℕ, pos, ◌+ℤ◌, List, All};
ghost use Rattle.vms_world.specs.Common.{Header, IsHeader, IsCounter, GivesThresholds, IsEvent, IsDeclared};
ghost use Rattle.vms_world.specs.Common.{AreSegments, Segment, Start, plain_total, started, IsWorldRun, SegmentsLead};
ghost use Rattle.vms_world.specs.Common.{TableHistories, IsWorldOf};
ghost use Rattle.vms_report.specs.Common.{totals_report, event_total, page_total, pcpu_total};
ghost use Rattle.vms_total_laws.specs.Moves.{EventsMoveByAll, PagesMoveByAll};
ghost use Rattle.vms_total_laws.specs.PlainSums.{AreLinesOf, AreNumbered, adds_by_all, counts_by_all, phases_among};
ghost use Rattle.vms_total_laws.specs.WayAnswers.{answers_on};
ghost use Rattle.vms_world.specs.declared.worlds.World.{World};

use crate::phases::phases_add_their_lines;
use vms_calls::ThresholdRules;

/// On a way through the segments of a text the total of each counter grows by the plain sums of the phases: no boundary
/// line moves one.
pub fn ways_add_their_phases<R: ThresholdRules>()
    ensures pages { (header : Header) (segments : List Segment) (hss : List TableHistories)
        (w last : World) →
        GivesThresholds R.normal → IsWorldOf header w → All (AreLinesOf header) (phases_among segments) →
        SegmentsLead header R.pressure R.normal segments hss w last →
        PagesMoveByAll header (phases_among segments) w last }
    ensures events { (header : Header) (segments : List Segment) (hss : List TableHistories)
        (w last : World) →
        GivesThresholds R.normal → IsWorldOf header w → All (AreLinesOf header) (phases_among segments) →
        SegmentsLead header R.pressure R.normal segments hss w last →
        EventsMoveByAll header (phases_among segments) w last }
    ensures counters { (header : Header) (segments : List Segment) (hss : List TableHistories)
        (w last : World) →
        GivesThresholds R.normal → IsWorldOf header w → All (AreLinesOf header) (phases_among segments) →
        All AreNumbered (phases_among segments) →
        (through : SegmentsLead header R.pressure R.normal segments hss w last) → (j : ℕ) →
        IsDeclared header j →
        pcpu_total header last j ≡ pcpu_total header w j +ℤ
        adds_by_all j (answers_on header R.pressure R.normal segments hss w last through) (phases_among segments) }
{
    phases_add_their_lines::<R>();
    vms_world::boundaries_keep_worlds::<R>();
    vms_world::boundaries_keep_totals::<R>();
    vms_world::phases_keep_worlds();
}

/// In the last world of a run each page counter has its plain total, its base and all deltas of the phases. Each event
/// has all counts, and each percpu counter all amounts, of limited additions where their answer is yes.
pub fn runs_come_to_plain_totals<R: ThresholdRules>()
    ensures pages { (header : Header) (segments : List Segment) (hss : List TableHistories)
        (last : World) →
        IsHeader header → GivesThresholds R.normal → All (AreLinesOf header) (phases_among segments) →
        IsWorldRun header R.pressure R.normal segments hss last → (k : ℕ) → IsCounter header.layout k →
        page_total header last k ≡ plain_total header (phases_among segments) k }
    ensures events { (header : Header) (segments : List Segment) (hss : List TableHistories)
        (last : World) →
        IsHeader header → GivesThresholds R.normal → All (AreLinesOf header) (phases_among segments) →
        IsWorldRun header R.pressure R.normal segments hss last → (k : ℕ) → IsEvent k →
        event_total header last k ≡ pos (counts_by_all k (phases_among segments)) }
    ensures counters { (header : Header) (segments : List Segment) (hss : List TableHistories)
        (last : World) →
        IsHeader header → GivesThresholds R.normal → All (AreLinesOf header) (phases_among segments) →
        All AreNumbered (phases_among segments) →
        (run : IsWorldRun header R.pressure R.normal segments hss last) → (j : ℕ) → IsDeclared header j →
        pcpu_total header last j ≡ adds_by_all j
        (answers_on header R.pressure R.normal segments hss (started header run.zones) last run.leads)
        (phases_among segments) }
{
    ways_add_their_phases::<R>();
    vms_world::starts_make_worlds::<R>();
}

/// So the report of that world prints the plain totals.
pub fn runs_report_plain_totals<R: ThresholdRules>()
    ensures { (header : Header) (segments : List Segment) (hss : List TableHistories)
        (last : World) →
        IsHeader header → GivesThresholds R.normal → All (AreLinesOf header) (phases_among segments) →
        All AreNumbered (phases_among segments) →
        (run : IsWorldRun header R.pressure R.normal segments hss last) →
        totals_report header (page_total header last) (event_total header last) (pcpu_total header last)
        ≡ totals_report header (plain_total header (phases_among segments))
        (λ k. pos (counts_by_all k (phases_among segments)))
        (λ j. adds_by_all j
        (answers_on header R.pressure R.normal segments hss (started header run.zones) last run.leads)
        (phases_among segments)) }
{
    runs_come_to_plain_totals::<R>();
}

/// The phases of a body keep lines of its header, and the numbers of each ascend.
pub fn phases_keep_known_lines()
    ensures known { (header : Header) (start : Start) (segments : List Segment) →
        AreSegments header start segments → All (AreLinesOf header) (phases_among segments) }
    ensures numbered { (header : Header) (start : Start) (segments : List Segment) →
        AreSegments header start segments → All AreNumbered (phases_among segments) }
{}
