ghost use Rattle.std.specs.Prelude.{◌≡◌, ◌≤◌, ℕ, IfSome, IsNone};
ghost use Rattle.vms_calls.specs.Common.{IsHeader, IsLayout, IsZone, Header, MarkRead, PlaceId, WaterMark, is_doubtful};
ghost use Rattle.vms_cursors.specs.Cursors.{GoesOn, IsDue, HasEnded, Stops};
ghost use Rattle.vms_cursors.specs.Tests.{test_answer, test_at};
ghost use Rattle.vms_cursors.specs.declared.test_positions.TestPosition.TheVariants.{Begun, Marked, Valued, Doubtful};

use crate::SnapshotPosition;
use crate::readings::{mark_in, value_in};
use vms_base::{Header, Layout, PlaceId, WaterMark};
use vms_calc::limit;
use vms_calls::Verdict;
use vms_core::{MarkRead, Step};
use vms_plans::DueStep;

/// Where a test of a zone's watermark stands: which of its steps were made, and what these told. Neither the watermark
/// nor the highest zone index has a part in which steps a test makes.
#[derive(Clone, Copy, Debug, PartialEq, Eq)]
pub enum TestPosition {
    /// None.
    Begun,
    /// The mark was loaded.
    Marked(MarkRead),
    /// The free pages were loaded, after the mark.
    Valued(MarkRead, i64),
    /// All, and there was no doubt of these free pages.
    Fast(i64),
    /// The mark was loaded again and there was doubt: a snapshot is under way.
    Doubtful(SnapshotPosition),
}

impl TestPosition {
    /// The step that is due: none where the test has ended.
    pub fn due(self, layout: &Layout, zone: PlaceId) -> Option<DueStep>
        requires layout { IsLayout layout.now }
        requires zone { IsZone layout.now zone.number }
        ensures due { (header : Header) (mark : WaterMark) (most : ℕ) → header.layout ≡ layout.now →
            IfSome result (λ due. IsDue (test_at header zone mark most self) due) }
        ensures ended { (header : Header) (mark : WaterMark) (most : ℕ) → header.layout ≡ layout.now →
            IsNone result → HasEnded (test_at header zone mark most self) (test_answer header zone mark most self) }
    {
        match self {
            TestPosition::Begun | TestPosition::Valued(_, _) => Some(DueStep::LoadsMark(zone)),
            TestPosition::Marked(_) => Some(DueStep::LoadsValue(layout.counter(zone, 0))),
            TestPosition::Fast(_) => None,
            TestPosition::Doubtful(snapshot) => snapshot.due(layout.counter(zone, 0), layout),
        }
    }

    /// The position after a step: none where the step isn't the one that is due.
    #[inline(always)]
    pub fn next(self, layout: &Layout, zone: PlaceId, step: Step) -> Option<TestPosition>
        requires layout { IsLayout layout.now }
        requires zone { IsZone layout.now zone.number }
        ensures goes { (header : Header) (mark : WaterMark) (most : ℕ) → header.layout ≡ layout.now →
            IfSome result
            (λ later. GoesOn (test_at header zone mark most self) step (test_at header zone mark most later)) }
        ensures stops { (header : Header) (mark : WaterMark) (most : ℕ) → header.layout ≡ layout.now →
            IsNone result → Stops (test_at header zone mark most self) step }
    {
        match self {
            TestPosition::Begun => after_begun(zone, step),
            TestPosition::Marked(first) => after_marked(layout, zone, first, step),
            TestPosition::Valued(first, value) => after_valued(zone, first, value, step),
            TestPosition::Fast(_) => None,
            TestPosition::Doubtful(snapshot) => after_doubtful(layout, zone, snapshot, step),
        }
    }

    /// The verdict where the test has ended.
    pub(crate) fn verdict(
        self,
        zone: PlaceId,
        mark: WaterMark,
        most: u32,
        header: &Header,
    ) -> Verdict
        requires header { IsHeader header.now }
        requires zone { IsZone header.now.layout zone.number }
        requires most { most ≤ 3 }
        ensures { result ≡ test_answer header.now zone mark most self }
    {
        let limit = limit(header, zone, mark, most);
        let (free, fast) = match self {
            TestPosition::Fast(value) => (value.max(0) as u64, true),
            TestPosition::Doubtful(snapshot) => (snapshot.pages(), false),
            _ => (0, false),
        };
        Verdict {
            yes: limit < free,
            free,
            fast,
        }
    }
}

fn after_begun(zone: PlaceId, step: Step) -> Option<TestPosition>
    ensures goes { (header : Header) (mark : WaterMark) (most : ℕ) → IfSome result
        (λ later. GoesOn (test_at header zone mark most Begun) step (test_at header zone mark most later)) }
    ensures stops { (header : Header) (mark : WaterMark) (most : ℕ) → IsNone result →
        Stops (test_at header zone mark most Begun) step }
{
    match mark_in(zone, step) {
        Some(first) => Some(TestPosition::Marked(first)),
        None => None,
    }
}

fn after_marked(layout: &Layout, zone: PlaceId, first: MarkRead, step: Step) -> Option<TestPosition>
    requires layout { IsLayout layout.now }
    requires zone { IsZone layout.now zone.number }
    ensures goes { (header : Header) (mark : WaterMark) (most : ℕ) → header.layout ≡ layout.now → IfSome result
        (λ later. GoesOn (test_at header zone mark most (Marked first)) step (test_at header zone mark most later)) }
    ensures stops { (header : Header) (mark : WaterMark) (most : ℕ) → header.layout ≡ layout.now → IsNone result →
        Stops (test_at header zone mark most (Marked first)) step }
{
    match value_in(layout.counter(zone, 0), step) {
        Some(value) => Some(TestPosition::Valued(first, value)),
        None => None,
    }
}

fn after_valued(zone: PlaceId, first: MarkRead, value: i64, step: Step) -> Option<TestPosition>
    ensures goes { (header : Header) (mark : WaterMark) (most : ℕ) → IfSome result
        (λ later. GoesOn (test_at header zone mark most (Valued first value)) step
        (test_at header zone mark most later)) }
    ensures stops { (header : Header) (mark : WaterMark) (most : ℕ) → IsNone result →
        Stops (test_at header zone mark most (Valued first value)) step }
{
    match mark_in(zone, step) {
        Some(second) if is_in_doubt(first, value, second) => {
            Some(TestPosition::Doubtful(SnapshotPosition::Begun))
        }
        Some(_) => Some(TestPosition::Fast(value)),
        None => None,
    }
}

fn after_doubtful(
    layout: &Layout,
    zone: PlaceId,
    snapshot: SnapshotPosition,
    step: Step,
) -> Option<TestPosition>
    requires layout { IsLayout layout.now }
    requires zone { IsZone layout.now zone.number }
    ensures goes { (header : Header) (mark : WaterMark) (most : ℕ) → header.layout ≡ layout.now → IfSome result
        (λ later. GoesOn (test_at header zone mark most (Doubtful snapshot)) step
        (test_at header zone mark most later)) }
    ensures stops { (header : Header) (mark : WaterMark) (most : ℕ) → header.layout ≡ layout.now → IsNone result →
        Stops (test_at header zone mark most (Doubtful snapshot)) step }
{
    match snapshot.next(layout.counter(zone, 0), layout, step) {
        Some(later) => Some(TestPosition::Doubtful(later)),
        None => None,
    }
}

/// Whether a test that found these takes the snapshot: the mark was set between its loads, or the value is below it.
fn is_in_doubt(first: MarkRead, value: i64, second: MarkRead) -> bool
    ensures { result ≡ is_doubtful first value second }
{
    if first.mark != second.mark || first.number != second.number {
        return true;
    }
    first.mark != 0 && (value.max(0) as u64) < first.mark
}
