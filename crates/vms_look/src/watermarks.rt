ghost use Rattle.std.specs.Prelude.{◌≡◌, ◌<◌, ◌≤◌, ◌&&◌, ◌||◌, ℕ, true, false, List, nat_eq, nat_lt, not};
ghost use Rattle.vms_calls.specs.Common.{IsZone, limit_of, IsWatermarkTest, free_pages as free_counter, Step, pages};
ghost use Rattle.vms_look.specs.Looking.{HasFree};
ghost use Rattle.vms_look.specs.SnapshotTotals.{SumsTruly};
ghost use Rattle.vms_look.specs.Truth.{SaysTruly, TellsTruly};
ghost use Rattle.vms_seats.specs.Common.{IsFrom, Made};

use crate::values::{clamped, snapshot};
use vms_base::{Header, PlaceId, WaterMark};
use vms_calc::limit;
use vms_calls::Verdict;
use vms_core::MarkRead;
use vms_words::{Caller, PageTable};

/// Tests whether a zone has more free pages than a watermark asks for, for a request that may use the zones of its node
/// up to the zone index `most` (`zone_watermark_ok_safe` of mm/page_alloc.c at order 0). The zone's drift mark is
/// loaded before and after its free pages. Where it was set in between, or they are below it, the free pages are a
/// snapshot. In Linux 6.1 `compaction_ready` and `pgdat_balanced` of mm/vmscan.c alone test so; the page allocator
/// tests by `zone_watermark_fast` and `zone_watermark_ok`, which take the value as it is.
///
/// An answer without a snapshot, yes or no, tells of the moment when the free pages were loaded. Where they aren't 0,
/// the zone truly had at least as many then, less the zone's slack and the negative amounts that callers carried. It
/// had at most as many, with the slack and the positive amounts carried. The slack is the pages between `min` and `low`
/// where the zone has no mark, else those by which its mark exceeds `high`. So after a yes under a mark the zone truly
/// had at least `high` pages, less these negative amounts; and after a yes without one more than was asked for, less
/// the slack and these amounts.
pub fn watermark_ok<P: Caller>(
    table: &PageTable,
    pass: &mut P,
    header: &Header,
    zone: PlaceId,
    mark: WaterMark,
    most: u32,
) -> Verdict
    requires table { IsFrom (P.pass pass.old) table.now }
    requires layout { header.now.layout ≡ table.now.facts.layout }
    requires sizes { header.now.sizes ≡ table.now.facts.sizes }
    requires zone { IsZone table.now.facts.layout zone.number }
    requires most { most ≤ 3 }
    ensures made { (steps : List Step) × IsWatermarkTest header.now zone mark most steps result
        × Made pages (P.pass pass.new) (P.pass pass.old) steps }
    ensures near { result.fast ≡ true →
        TellsTruly (P.pass pass.new) (P.pass pass.old) zone result.free }
    ensures truly { result.yes ≡ true → result.fast ≡ true →
        SaysTruly (P.pass pass.new) (P.pass pass.old) zone (limit_of header.now zone.number mark most) }
    ensures summed { result.fast ≡ false →
        SumsTruly (P.pass pass.new) (P.pass pass.old) (free_counter table.now.facts.layout zone) result.free }
    ensures volume { P.volume pass.new ≡ P.volume pass.old }
{
    pass.is_live();
    let limit = limit(header, zone, mark, most);
    let found = free_pages(table, pass, zone);
    Verdict {
        yes: limit < found.free,
        free: found.free,
        fast: found.fast,
    }
}

/// The free pages of a zone that a test rests on.
#[derive(Clone, Copy, Debug, PartialEq, Eq)]
pub struct FreePages {
    /// The free pages, in pages of 4096 bytes, and 0 where a negative number was found.
    pub free: u64,
    /// Whether they are the value, and no snapshot was made.
    pub fast: bool,
}

/// The free pages of a zone that a test rests on (`zone_watermark_ok_safe` of mm/page_alloc.c, of which each caller has
/// a limit of its own, as `compaction_ready` of mm/vmscan.c has `high` and a gap): the value, or a snapshot where the
/// zone's drift mark was set between two loads of it, or the value is below it. What is true of them is said for any
/// limit that they are compared with.
#[inline]
pub fn free_pages<P: Caller>(table: &PageTable, pass: &mut P, zone: PlaceId) -> FreePages
    requires table { IsFrom (P.pass pass.old) table.now }
    requires zone { IsZone table.now.facts.layout zone.number }
    ensures made { HasFree table.now.facts.layout (P.pass pass.new) (P.pass pass.old) zone result.free result.fast }
    ensures near { result.fast ≡ true →
        TellsTruly (P.pass pass.new) (P.pass pass.old) zone result.free }
    ensures truly { result.fast ≡ true → (limit : ℕ) → limit < result.free →
        SaysTruly (P.pass pass.new) (P.pass pass.old) zone limit }
    ensures summed { result.fast ≡ false →
        SumsTruly (P.pass pass.new) (P.pass pass.old) (free_counter table.now.facts.layout zone) result.free }
    ensures volume { P.volume pass.new ≡ P.volume pass.old }
{
    pass.is_live();
    let counter = table.layout().counter(zone, 0);
    let first = table.load_mark(pass, zone);
    let value = clamped(table.load_place(pass, counter));
    let second = table.load_mark(pass, zone);
    if is_doubtful(first, value, second) {
        FreePages {
            free: snapshot(table, pass, counter),
            fast: false,
        }
    } else {
        FreePages {
            free: value,
            fast: true,
        }
    }
}

/// Whether a test that found these takes the snapshot: the mark was set between its loads, or the value is below it.
#[inline]
fn is_doubtful(first: MarkRead, value: u64, second: MarkRead) -> bool
    ensures { result ≡ (not (nat_eq first.mark second.mark && nat_eq first.number second.number)
        || (not (nat_eq first.mark 0) && nat_lt value first.mark)) }
{
    if first.mark != second.mark || first.number != second.number {
        return true;
    }
    first.mark != 0 && value < first.mark
}
