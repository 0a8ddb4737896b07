ghost use Rattle.std.specs.Prelude.{◌≡◌, ◌++◌, OnErr, OnOk};
ghost use Rattle.vms_world.specs.Common.{IsHeader, Report, MayCross, IsWorldOf};
ghost use Rattle.vms_replay.specs.MadePhases.{crossed as crossed_world};
ghost use Rattle.vms_replay.specs.ReplayStates.{world_report};
ghost use Rattle.vms_text.specs.Writing.{Begins};

use crate::rules::bring_cpu_up;
use vms_base::{Header, Memory};
use vms_command::write_prefix;
use vms_hotplug::{flush, take_down};
use vms_line::{Boundary, Line, ReportKind, write_line};
use vms_report::write_report;
use vms_world::World;

/// What a boundary line makes of a world.
pub(crate) fn crossed(world: World, header: &Header, boundary: Boundary) -> World
    requires header { IsHeader header.now }
    requires world { IsWorldOf header.now world }
    requires may { MayCross header.now.layout world.pages boundary }
    ensures { result ≡ crossed_world header.now boundary world }
{
    let mut world = world;
    cross(&mut world, header, boundary);
    world
}

/// Does what a boundary line does to a world.
fn cross(world: &mut World, header: &Header, boundary: Boundary)
    requires header { IsHeader header.now }
    requires world { IsWorldOf header.now world.old }
    requires may { MayCross header.now.layout world.old.pages boundary }
    ensures { world.new ≡ crossed_world header.now boundary world.old }
{
    match boundary {
        Boundary::Offline(cpu) => take_down(world, cpu),
        Boundary::Online(cpu) => bring_cpu_up(world, header, cpu),
        Boundary::Flush => flush(world, header),
        Boundary::Sync | Boundary::Report(_) => {}
    }
}

/// Appends what a boundary line of this number reports of a world.
pub(crate) fn write_boundary_report(
    out: &mut Vec<u8>,
    header: &Header,
    number: u32,
    boundary: Boundary,
    world: &World,
) -> Result<(), Memory>
    requires header { IsHeader header.now }
    requires world { IsWorldOf header.now world.now }
    ensures ok { OnOk result (out.new.items ≡ out.old.items ++ world_report header.now number boundary world.now) }
    ensures err { OnErr result (Begins out.old.items out.new.items) }
{
    match boundary {
        Boundary::Report(kind) => write_numbered_report(out, header, number, kind, world),
        _ => Ok(()),
    }
}

/// Appends the report of a kind below its line, which has this number.
fn write_numbered_report(
    out: &mut Vec<u8>,
    header: &Header,
    number: u32,
    kind: ReportKind,
    world: &World,
) -> Result<(), Memory>
    requires header { IsHeader header.now }
    requires world { IsWorldOf header.now world.now }
    ensures ok { OnOk result (out.new.items
        ≡ out.old.items ++ world_report header.now number (Report kind) world.now) }
    ensures err { OnErr result (Begins out.old.items out.new.items) }
{
    write_prefix(out, number)?;
    write_line(out, header, &Line::Boundary(Boundary::Report(kind)))?;
    write_report(out, header, world, kind)
}
