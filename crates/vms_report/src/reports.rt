ghost use Rattle.std.specs.Prelude.{◌≡◌, ◌++◌, OnErr, OnOk};
ghost use Rattle.vms_report.specs.Reports.{report_of};
ghost use Rattle.vms_world.specs.Common.{IsWorldOf};
ghost use Rattle.vms_text.specs.Writing.{Begins};

use crate::{write_counters, write_totals, write_vmstat, write_zoneinfo};
use vms_base::{Header, Memory};
use vms_text::ReportKind;
use vms_world::World;

/// Appends the report of a kind on a world. After a failure `out` may end in a part of it.
pub fn write_report(
    out: &mut Vec<u8>,
    header: &Header,
    world: &World,
    kind: ReportKind,
) -> Result<(), Memory>
    requires { IsWorldOf header.now world.now }
    ensures ok { OnOk result (out.new.items ≡ out.old.items ++ report_of header.now world.now kind) }
    ensures err { OnErr result (Begins out.old.items out.new.items) }
{
    match kind {
        ReportKind::Vmstat => write_vmstat(out, header, world),
        ReportKind::Zoneinfo => write_zoneinfo(out, header, world),
        ReportKind::Totals => write_totals(out, header, world),
        ReportKind::Counters => write_counters(out, header, world),
    }
}
