ghost use Rattle.std.specs.Prelude.{◌≡◌, ◌++◌, ◌+◌, ◌≤◌, flat_map, length, map, OnErr, OnOk};
ghost use Rattle.std.specs.List.{enumerate_from};
ghost use Rattle.vms_world.specs.Common.{online_from, sum_over, IsEvent, Vmstat, sentence, IsWorldOf};
ghost use Rattle.vms_report.specs.Reports.{report_of};
ghost use Rattle.vms_report.specs.Vmstat.{event_lines, system_lines, told_events};
ghost use Rattle.vms_text.specs.Writing.{Begins};

use crate::items::names_of;
use crate::lines::clamped;
use crate::rooms::worlds_leave_room;
use vms_base::{EventId, Header, ItemId, Memory, event_names};
use vms_plain_events::all_events;
use vms_text::{Word, write_words};
use vms_world::World;

/// Appends what `/proc/vmstat` tells (`vmstat_start` and `vmstat_show` of mm/vmstat.c): the system-wide values of the
/// zone items and of the node items, in pages of 4096 bytes and 0 where they are negative, and what the CPUs that are
/// online have counted of each event, `pgpgin` and `pgpgout` in KiB. After a failure `out` may end in a part of the
/// report.
pub fn write_vmstat(out: &mut Vec<u8>, header: &Header, world: &World) -> Result<(), Memory>
    requires { IsWorldOf header.now world.now }
    ensures ok { OnOk result (out.new.items ≡ out.old.items ++ report_of header.now world.now Vmstat) }
    ensures err { OnErr result (Begins out.old.items out.new.items) }
{
    let (zone_items, node_items) = (names_of(header, false), names_of(header, true));
    // A line has at most 43 bytes.
    out.reserve(43 * (header.layout.items() as usize + 8))?;
    write_systems(out, world, 0, zone_items.as_slice())?;
    write_systems(out, world, header.layout.positions(), node_items.as_slice())?;
    write_events(out, header, world)
}

/// Appends the lines of the items of these names, whose system-wide values begin at `first`.
fn write_systems(
    out: &mut Vec<u8>,
    world: &World,
    first: u32,
    names: &[&[u8]],
) -> Result<(), Memory>
    requires known { first + length names.now ≤ length world.now.pages.system }
    requires few { length world.now.pages.system ≤ 32 }
    ensures ok { OnOk result (out.new.items ≡ out.old.items ++ flat_map sentence
        (system_lines world.now first (enumerate_from 0 (map (λ name. name.now) names.now)))) }
    ensures err { OnErr result (Begins out.old.items out.new.items) }
{
    for (position, name) in names.iter().enumerate() {
        let item = ItemId {
            number: first + position as u32,
        };
        let value = clamped(world.pages.system_at(item));
        write_words(out, &[Word::Text(*name), value])?;
    }
    Ok(())
}

fn write_events(out: &mut Vec<u8>, header: &Header, world: &World) -> Result<(), Memory>
    requires { IsWorldOf header.now world.now }
    ensures ok { OnOk result (out.new.items ≡ out.old.items ++ flat_map sentence (event_lines world.now)) }
    ensures err { OnErr result (Begins out.old.items out.new.items) }
{
    for (number, name) in event_names().iter().enumerate() {
        let event = EventId {
            number: number as u32,
        };
        let count = online_events(header, world, event);
        let told = told_events(name, count);
        write_words(out, &[Word::Text(name.as_bytes()), Word::Unsigned(told)])?;
    }
    Ok(())
}

/// What the online CPUs have counted of an event.
fn online_events(header: &Header, world: &World, event: EventId) -> u64
    requires world { IsWorldOf header.now world.now }
    requires event { IsEvent event.number }
    ensures { result ≡ sum_over world.now.events event.number (online_from 0 world.now.pages.cpu) }
{
    worlds_leave_room();
    all_events(&world.events, world.pages.cpu.as_slice(), event)
}

/// An event as it is told: sectors of 512 bytes in KiB, and all others as they are counted.
fn told_events(name: &str, count: u64) -> u64
    ensures { result ≡ told_events name.now count }
{
    if name == "pgpgin" || name == "pgpgout" {
        count / 2
    } else {
        count
    }
}
