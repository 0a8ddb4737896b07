//! The test of a watermark.

ghost use Rattle.std.specs.Prelude.{◌≡◌, ◌≤◌, ◌^◌, IfOk, OnErr, Option};
ghost use Rattle.vms_text.specs.Common.{Begins};
ghost use Rattle.vms_calls.specs.Common.{CpuId, IsHeader, IsZone, is_doubtful};
ghost use Rattle.vms_plain_pages.specs.Common.{IsSmallState};
ghost use Rattle.vms_plans.specs.Common.{frees_plan, test_plan};
ghost use Rattle.vms_call_lines.specs.Lines.{WritesWay};

use crate::loads::{load_mark, load_value};
use crate::looks::{clamped, write_snapshot};
use vms_base::{Header, Memory, PlaceId, WaterMark};
use vms_calc::limit;
use vms_calls::Verdict;
use vms_core::{MarkRead, Plain};

/// A test whether a zone has more free pages than a watermark asks for, for a request that may use the zones of its
/// node up to the zone index `most`.
pub(crate) fn write_test(
    out: &mut Vec<u8>,
    caller: u32,
    pages: &Plain,
    header: &Header,
    zone: PlaceId,
    mark: WaterMark,
    most: u32,
) -> Result<Verdict, Memory>
    requires header { IsHeader header.now }
    requires room { IsSmallState header.now.layout (2 ^ 61) pages.now }
    requires zone { IsZone header.now.layout zone.number }
    requires most { most ≤ 3 }
    ensures ok { IfOk result (λ answer. (who : Option CpuId) → WritesWay who (test_plan header.now zone mark most)
        pages.now caller out.old.items out.new.items answer pages.now) }
    ensures err { OnErr result (Begins out.old.items out.new.items) }
{
    let counter = header.layout.counter(zone, 0);
    let first = load_mark(out, caller, pages, zone)?;
    let value = load_value(out, caller, pages, counter)?;
    let second = load_mark(out, caller, pages, zone)?;
    let doubt = is_doubtful(first, value, second);
    let verdict = write_frees(out, caller, pages, header, zone, mark, most, doubt, value)?;
    Ok(verdict)
}

/// The verdict on the value that was found, and where there is doubt on a snapshot.
fn write_frees(
    out: &mut Vec<u8>,
    caller: u32,
    pages: &Plain,
    header: &Header,
    zone: PlaceId,
    mark: WaterMark,
    most: u32,
    doubt: bool,
    value: i64,
) -> Result<Verdict, Memory>
    requires header { IsHeader header.now }
    requires room { IsSmallState header.now.layout (2 ^ 61) pages.now }
    requires zone { IsZone header.now.layout zone.number }
    requires most { most ≤ 3 }
    ensures ok { IfOk result (λ answer. (who : Option CpuId) → WritesWay who
        (frees_plan header.now zone mark most doubt value) pages.now caller out.old.items out.new.items answer
        pages.now) }
    ensures err { OnErr result (Begins out.old.items out.new.items) }
{
    let limit = limit(header, zone, mark, most);
    if !doubt {
        let free = clamped(value);
        return Ok(Verdict {
            yes: limit < free,
            free,
            fast: true,
        });
    }
    let counter = header.layout.counter(zone, 0);
    let free = write_snapshot(out, caller, pages, &header.layout, counter)?;
    Ok(Verdict {
        yes: limit < free,
        free,
        fast: false,
    })
}

/// Whether the mark was set between its loads, or the value is below it.
fn is_doubtful(first: MarkRead, value: i64, second: MarkRead) -> bool
    ensures { result ≡ is_doubtful first value second }
{
    !(first.mark == second.mark && first.number == second.number)
        || (first.mark != 0 && clamped(value) < first.mark)
}
