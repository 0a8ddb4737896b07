ghost use Rattle.std.specs.Prelude.{◌≡◌, ◌∷◌, [], ◌++◌, ◌≤◌, flat_map, length, map, OnErr, OnOk};
ghost use Rattle.std.specs.Fmt.{signed_decimal};
ghost use Rattle.std.specs.List.{enumerate_from, range_with_len};
ghost use Rattle.vms_world.specs.Common.{IsPlace, place_count, Totals, sentence, IsWorldOf};
ghost use Rattle.vms_report.specs.Items.{items_at};
ghost use Rattle.vms_report.specs.Reports.{report_of};
ghost use Rattle.vms_report.specs.Totals.{event_total as event_total_of, event_totals, page_total as page_total_of};
ghost use Rattle.vms_report.specs.Totals.{pcpu_total, pcpu_totals, place_totals};
ghost use Rattle.vms_text.specs.Writing.{Begins};

use crate::all_cpus::{counter_total, event_total, page_total};
use crate::items::names_of;
use vms_base::{EventId, Header, Memory, PlaceId, event_names};
use vms_text::{Word, is_node, words_of_place, write_words};
use vms_world::World;

/// Appends the report of the totals of a world: what each page counter, each event and each percpu counter adds up to
/// over all CPUs, also those that are dead or absent. Pages are counted in 4096 bytes, and no total is clamped. After a
/// failure `out` may end in a part of the report.
pub fn write_totals(out: &mut Vec<u8>, header: &Header, world: &World) -> Result<(), Memory>
    requires { IsWorldOf header.now world.now }
    ensures ok { OnOk result (out.new.items ≡ out.old.items ++ report_of header.now world.now Totals) }
    ensures err { OnErr result (Begins out.old.items out.new.items) }
{
    let (items, counters) = (
        header.layout.counters() as usize,
        header.counters.len().min(16),
    );
    // A header declares at most 16 percpu counters, and a line has at most 56 bytes.
    out.reserve(56 * (items + 8 + counters))?;
    write_places(out, header, world)?;
    write_events(out, header, world)?;
    write_percpu(out, header, world)
}

fn write_places(out: &mut Vec<u8>, header: &Header, world: &World) -> Result<(), Memory>
    requires { IsWorldOf header.now world.now }
    ensures ok { OnOk result (out.new.items ≡ out.old.items ++ flat_map sentence (flat_map
        (place_totals header.now (page_total_of header.now world.now))
        (range_with_len 0 (place_count header.now.layout)))) }
    ensures err { OnErr result (Begins out.old.items out.new.items) }
{
    for number in 0..header.layout.places() {
        write_place(out, header, world, PlaceId { number })?;
    }
    Ok(())
}

/// Appends the line of each item of a place.
fn write_place(
    out: &mut Vec<u8>,
    header: &Header,
    world: &World,
    place: PlaceId,
) -> Result<(), Memory>
    requires world { IsWorldOf header.now world.now }
    requires place { IsPlace header.now.layout place.number }
    ensures ok { OnOk result (out.new.items ≡ out.old.items
        ++ flat_map sentence (place_totals header.now (page_total_of header.now world.now) place.number)) }
    ensures err { OnErr result (Begins out.old.items out.new.items) }
{
    let names = names_of(header, is_node(&header.layout, place));
    write_items(out, header, world, place, names.as_slice())
}

fn write_items<'a>(
    out: &mut Vec<u8>,
    header: &'a Header,
    world: &World,
    place: PlaceId,
    names: &[&'a [u8]],
) -> Result<(), Memory>
    requires world { IsWorldOf header.now world.now }
    requires place { IsPlace header.now.layout place.number }
    requires names { enumerate_from 0 (map (λ name. name.now) names.now) ≡ items_at header.now place.number }
    requires most { length names.now ≤ header.now.layout.positions }
    ensures ok { OnOk result (out.new.items ≡ out.old.items
        ++ flat_map sentence (place_totals header.now (page_total_of header.now world.now) place.number)) }
    ensures err { OnErr result (Begins out.old.items out.new.items) }
{
    let (node, kind) = words_of_place(header, place);
    for (position, name) in names.iter().enumerate() {
        let counter = header.layout.counter(place, position as u32);
        let total = page_total(&world.pages, &header.layout, counter);
        write_words(out, &[node, kind, Word::Text(*name), Word::Signed(total)])?;
    }
    Ok(())
}

fn write_events(out: &mut Vec<u8>, header: &Header, world: &World) -> Result<(), Memory>
    requires { IsWorldOf header.now world.now }
    ensures ok { OnOk result (out.new.items ≡ out.old.items
        ++ flat_map sentence (event_totals (event_total_of header.now world.now))) }
    ensures err { OnErr result (Begins out.old.items out.new.items) }
{
    for (number, name) in event_names().iter().enumerate() {
        let event = EventId {
            number: number as u32,
        };
        let total = event_total(&world.events, &header.layout, event);
        write_named(out, b"event", name.as_bytes(), total)?;
    }
    Ok(())
}

fn write_percpu(out: &mut Vec<u8>, header: &Header, world: &World) -> Result<(), Memory>
    requires { IsWorldOf header.now world.now }
    ensures ok { OnOk result (out.new.items ≡ out.old.items
        ++ flat_map sentence (pcpu_totals header.now (pcpu_total header.now world.now))) }
    ensures err { OnErr result (Begins out.old.items out.new.items) }
{
    for (counter, decl) in header.counters.as_slice().iter().enumerate() {
        let total = counter_total(&world.counters, &header.layout, counter);
        write_named(out, b"counter", decl.name.as_slice(), total)?;
    }
    Ok(())
}

/// Appends `WORD NAME VALUE`.
fn write_named<'a>(
    out: &mut Vec<u8>,
    word: &'a [u8],
    name: &'a [u8],
    total: i64,
) -> Result<(), Memory>
    ensures ok { OnOk result (out.new.items
        ≡ out.old.items ++ sentence (word.now ∷ name.now ∷ signed_decimal total ∷ [])) }
    ensures err { OnErr result (Begins out.old.items out.new.items) }
{
    write_words(
        out,
        &[Word::Text(word), Word::Text(name), Word::Signed(total)],
    )
}
