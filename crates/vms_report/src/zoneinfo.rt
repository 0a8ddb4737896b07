ghost use Rattle.std.specs.Prelude.{◌≡◌, ◌∷◌, [], ◌++◌, ◌≤◌, ◌-◌, codes, decimal, flat_map, length, map, All, OnErr};
ghost use Rattle.std.specs.Prelude.{OnOk};
ghost use Rattle.std.specs.Fmt.{signed_decimal};
ghost use Rattle.std.specs.List.{enumerate_from, range_with_len};
ghost use Rattle.vms_world.specs.Common.{IsCpu, IsNode, IsPlace, IsZone, counter_at, IsValidSize, diff_at, Zoneinfo};
ghost use Rattle.vms_world.specs.Common.{sentence, spaced, IsWorldOf};
ghost use Rattle.vms_report.specs.Items.{indented, items_at};
ghost use Rattle.vms_report.specs.Reports.{report_of};
ghost use Rattle.vms_report.specs.Zoneinfo.{cpu_lines, cpu_words, dead_words, item_lines, mark_lines, node_text};
ghost use Rattle.vms_report.specs.Zoneinfo.{protection_words, size_lines, zone_heading, zone_text};
ghost use Rattle.vms_text.specs.Writing.{Begins};

use crate::items::names_of;
use crate::lines::{clamped, is_present, push_next_number, write_indented};
use vms_base::{
    CpuId, CpuState, Header, Layout, Memory, PlaceId, ZoneName, ZoneSize, kind_name, push_number,
};
use vms_calc::reserve;
use vms_text::{Word, is_node};
use vms_world::World;

/// Appends what `/proc/zoneinfo` tells (`zoneinfo_show_print` of mm/vmstat.c): of each zone its free pages, watermarks,
/// managed pages, drift mark and lowmem reserves, and of each zone and each node its items and the threshold and
/// differentials of each CPU that is online or dead. Values are in pages of 4096 bytes, and 0 where they are negative.
/// After a failure `out` may end in a part of the report.
pub fn write_zoneinfo(out: &mut Vec<u8>, header: &Header, world: &World) -> Result<(), Memory>
    requires { IsWorldOf header.now world.now }
    ensures ok { OnOk result (out.new.items ≡ out.old.items ++ report_of header.now world.now Zoneinfo) }
    ensures err { OnErr result (Begins out.old.items out.new.items) }
{
    out.reserve(room(&header.layout))?;
    write_zones(out, header, world)?;
    write_nodes(out, header, world)
}

/// The bytes of the report at most: for each place 256 in the lines that only zones have, 48 for each item, and for
/// each CPU 48 and 5 for each differential.
fn room(layout: &Layout) -> usize {
    let (places, cpus) = (layout.places() as usize, layout.cpus() as usize);
    let positions = layout.positions() as usize;
    places * (256 + 48 * positions + cpus * (48 + 5 * positions))
}

fn write_zones(out: &mut Vec<u8>, header: &Header, world: &World) -> Result<(), Memory>
    requires { IsWorldOf header.now world.now }
    ensures ok { OnOk result (out.new.items ≡ out.old.items
        ++ flat_map (zone_text header.now world.now) (enumerate_from 0 header.now.layout.zones)) }
    ensures err { OnErr result (Begins out.old.items out.new.items) }
{
    for (place, zone) in header.layout.zones().iter().enumerate() {
        let place = PlaceId {
            number: place as u32,
        };
        write_zone(out, header, world, place, *zone)?;
    }
    Ok(())
}

fn write_nodes(out: &mut Vec<u8>, header: &Header, world: &World) -> Result<(), Memory>
    requires { IsWorldOf header.now world.now }
    ensures ok { OnOk result (out.new.items ≡ out.old.items
        ++ flat_map (node_text header.now world.now) (enumerate_from 0 header.now.layout.nodes)) }
    ensures err { OnErr result (Begins out.old.items out.new.items) }
{
    let zones = header.layout.zones().len();
    for (index, node) in header.layout.nodes().iter().enumerate() {
        let place = PlaceId {
            number: (zones + index) as u32,
        };
        write_node(out, header, world, place, *node)?;
    }
    Ok(())
}

/// Appends the heading of a zone and the lines under it.
fn write_zone(
    out: &mut Vec<u8>,
    header: &Header,
    world: &World,
    place: PlaceId,
    zone: ZoneName,
) -> Result<(), Memory>
    requires world { IsWorldOf header.now world.now }
    requires zone { IsZone header.now.layout place.number }
    ensures ok { OnOk result (out.new.items ≡ out.old.items ++ zone_text header.now world.now (place.number, zone)) }
    ensures err { OnErr result (Begins out.old.items out.new.items) }
{
    write_heading(out, zone)?;
    write_sizes(out, header, world, place)?;
    write_place(out, header, world, place)
}

/// Appends the heading of a node and the lines under it.
fn write_node(
    out: &mut Vec<u8>,
    header: &Header,
    world: &World,
    place: PlaceId,
    node: u32,
) -> Result<(), Memory>
    requires world { IsWorldOf header.now world.now }
    requires node { IsNode header.now.layout place.number }
    ensures ok { OnOk result (out.new.items ≡ out.old.items
        ++ node_text header.now world.now (place.number - length header.now.layout.zones, node)) }
    ensures err { OnErr result (Begins out.old.items out.new.items) }
{
    push_node(out, node)?;
    out.extend_from_slice(b" all zones\n")?;
    write_place(out, header, world, place)
}

/// Appends the first line of a zone.
fn write_heading(out: &mut Vec<u8>, zone: ZoneName) -> Result<(), Memory>
    ensures ok { OnOk result (out.new.items ≡ out.old.items ++ sentence (zone_heading zone)) }
    ensures err { OnErr result (Begins out.old.items out.new.items) }
{
    push_node(out, zone.node)?;
    out.extend_from_slice(b" zone ")?;
    out.extend_from_slice(kind_name(zone.kind).as_bytes())?;
    out.push(b'\n')?;
    Ok(())
}

/// Appends `Node N,`.
fn push_node(out: &mut Vec<u8>, node: u32) -> Result<(), Memory>
    ensures ok { OnOk result (out.new.items ≡ out.old.items ++ codes "Node " ++ decimal node ++ codes ",") }
    ensures err { OnErr result (Begins out.old.items out.new.items) }
{
    out.extend_from_slice(b"Node ")?;
    push_number(out, i64::from(node))?;
    out.push(b',')?;
    Ok(())
}

/// Appends the lines that only zones have.
fn write_sizes(
    out: &mut Vec<u8>,
    header: &Header,
    world: &World,
    zone: PlaceId,
) -> Result<(), Memory>
    requires world { IsWorldOf header.now world.now }
    requires zone { IsZone header.now.layout zone.number }
    ensures ok { OnOk result (out.new.items ≡ out.old.items
        ++ flat_map indented (size_lines header.now world.now zone.number)) }
    ensures err { OnErr result (Begins out.old.items out.new.items) }
{
    let free = world.pages.value_at(header.layout.counter(zone, 0));
    write_indented(
        out,
        &[Word::Text(b"pages"), Word::Text(b"free"), clamped(free)],
    )?;
    write_marks(out, header.sizes.get(zone.number as usize))?;
    let mark = Word::Unsigned(world.pages.mark_at(zone).mark);
    write_indented(out, &[Word::Text(b"drift"), Word::Text(b"mark"), mark])?;
    write_protection(out, header, zone)
}

/// Appends the lines of the watermarks and of the managed pages.
fn write_marks(out: &mut Vec<u8>, size: ZoneSize) -> Result<(), Memory>
    ensures ok { OnOk result (out.new.items ≡ out.old.items ++ flat_map indented (mark_lines size)) }
    ensures err { OnErr result (Begins out.old.items out.new.items) }
{
    write_indented(out, &[Word::Text(b"min"), Word::Unsigned(size.min)])?;
    write_indented(out, &[Word::Text(b"low"), Word::Unsigned(size.low)])?;
    write_indented(out, &[Word::Text(b"high"), Word::Unsigned(size.high)])?;
    let managed = Word::Unsigned(size.managed);
    write_indented(out, &[Word::Text(b"managed"), managed])
}

/// Appends the line of the lowmem reserves.
fn write_protection(out: &mut Vec<u8>, header: &Header, zone: PlaceId) -> Result<(), Memory>
    requires sizes { All IsValidSize header.now.sizes }
    requires zone { IsZone header.now.layout zone.number }
    ensures ok { OnOk result (out.new.items ≡ out.old.items ++ indented (protection_words header.now zone.number)) }
    ensures err { OnErr result (Begins out.old.items out.new.items) }
{
    write_indented(
        out,
        &[
            Word::Text(b"protection"),
            Word::Unsigned(reserve(header, zone, 0)),
            Word::Unsigned(reserve(header, zone, 1)),
            Word::Unsigned(reserve(header, zone, 2)),
            Word::Unsigned(reserve(header, zone, 3)),
        ],
    )
}

/// Appends the lines of a place's items, and then of the CPUs that are present.
fn write_place(
    out: &mut Vec<u8>,
    header: &Header,
    world: &World,
    place: PlaceId,
) -> Result<(), Memory>
    requires world { IsWorldOf header.now world.now }
    requires place { IsPlace header.now.layout place.number }
    ensures ok { OnOk result (out.new.items ≡ out.old.items ++ flat_map indented
        (item_lines header.now world.now place.number ++ cpu_lines header.now world.now place.number)) }
    ensures err { OnErr result (Begins out.old.items out.new.items) }
{
    let names = names_of(header, is_node(&header.layout, place));
    write_items(out, header, world, place, names.as_slice())?;
    write_cpus(out, header, world, place, names.len() as u32)
}

fn write_items(
    out: &mut Vec<u8>,
    header: &Header,
    world: &World,
    place: PlaceId,
    names: &[&[u8]],
) -> Result<(), Memory>
    requires world { IsWorldOf header.now world.now }
    requires place { IsPlace header.now.layout place.number }
    requires names { enumerate_from 0 (map (λ name. name.now) names.now) ≡ items_at header.now place.number }
    requires most { length names.now ≤ header.now.layout.positions }
    ensures ok { OnOk result (out.new.items ≡ out.old.items
        ++ flat_map indented (item_lines header.now world.now place.number)) }
    ensures err { OnErr result (Begins out.old.items out.new.items) }
{
    for (position, name) in names.iter().enumerate() {
        let counter = header.layout.counter(place, position as u32);
        let value = clamped(world.pages.value_at(counter));
        write_indented(out, &[Word::Text(*name), value])?;
    }
    Ok(())
}

/// Appends the line of each CPU that is present, with so many differentials.
fn write_cpus(
    out: &mut Vec<u8>,
    header: &Header,
    world: &World,
    place: PlaceId,
    items: u32,
) -> Result<(), Memory>
    requires world { IsWorldOf header.now world.now }
    requires place { IsPlace header.now.layout place.number }
    requires items { items ≡ length (items_at header.now place.number) }
    requires most { items ≤ header.now.layout.positions }
    ensures ok { OnOk result (out.new.items ≡ out.old.items
        ++ flat_map indented (cpu_lines header.now world.now place.number)) }
    ensures err { OnErr result (Begins out.old.items out.new.items) }
{
    for (number, state) in world.pages.cpu.as_slice().iter().enumerate() {
        let cpu = CpuId {
            number: number as u32,
        };
        if is_present(*state) {
            write_cpu(out, header, world, place, items, cpu)?;
        }
    }
    Ok(())
}

/// Appends the line of a CPU.
fn write_cpu(
    out: &mut Vec<u8>,
    header: &Header,
    world: &World,
    place: PlaceId,
    items: u32,
    cpu: CpuId,
) -> Result<(), Memory>
    requires world { IsWorldOf header.now world.now }
    requires place { IsPlace header.now.layout place.number }
    requires items { items ≡ length (items_at header.now place.number) }
    requires most { items ≤ header.now.layout.positions }
    requires cpu { IsCpu header.now.layout cpu.number }
    ensures ok { OnOk result (out.new.items ≡ out.old.items
        ++ indented (cpu_words header.now world.now place.number cpu.number)) }
    ensures err { OnErr result (Begins out.old.items out.new.items) }
{
    let threshold = world.pages.threshold_at(&header.layout, cpu, place).t;
    push_cpu(out, cpu, world.pages.cpu_at(cpu), threshold)?;
    push_differentials(out, header, world, place, items, cpu)?;
    out.push(b'\n')?;
    Ok(())
}

/// Appends a CPU, whether it is dead, and its threshold.
fn push_cpu(out: &mut Vec<u8>, cpu: CpuId, state: CpuState, threshold: u32) -> Result<(), Memory>
    ensures ok { OnOk result (out.new.items ≡ out.old.items ++ codes "  cpu " ++ decimal cpu.number
        ++ spaced (dead_words state) ++ codes " threshold " ++ decimal threshold ++ codes " differentials") }
    ensures err { OnErr result (Begins out.old.items out.new.items) }
{
    out.extend_from_slice(b"  cpu ")?;
    push_number(out, i64::from(cpu.number))?;
    out.extend_from_slice(word_of_state(state))?;
    out.extend_from_slice(b" threshold ")?;
    push_number(out, i64::from(threshold))?;
    out.extend_from_slice(b" differentials")?;
    Ok(())
}

/// A blank and the word of a dead CPU. Any other has none.
fn word_of_state(state: CpuState) -> &'static [u8]
    ensures { result.now ≡ spaced (dead_words state) }
{
    match state {
        CpuState::Dead => b" dead",
        CpuState::Online | CpuState::Absent => b"",
    }
}

/// Appends the differentials of a CPU for the first so many items of a place, each after a blank.
fn push_differentials(
    out: &mut Vec<u8>,
    header: &Header,
    world: &World,
    place: PlaceId,
    items: u32,
    cpu: CpuId,
) -> Result<(), Memory>
    requires world { IsWorldOf header.now world.now }
    requires place { IsPlace header.now.layout place.number }
    requires most { items ≤ header.now.layout.positions }
    requires cpu { IsCpu header.now.layout cpu.number }
    ensures ok { OnOk result (out.new.items ≡ out.old.items
        ++ spaced (map (λ p. signed_decimal
        (diff_at world.now.pages cpu.number (counter_at header.now.layout place.number p))) (range_with_len 0 items))) }
    ensures err { OnErr result (Begins out.old.items out.new.items) }
{
    for position in 0..items {
        let counter = header.layout.counter(place, position);
        push_next_number(out, world.pages.diff_at(&header.layout, cpu, counter))?;
    }
    Ok(())
}
