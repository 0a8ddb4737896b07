ghost use Rattle.std.specs.Prelude.{◌≡◌, ◌∷◌, [], if◌then◌else◌, codes, ◌≢◌, ◌++◌, ◌<◌, pos, flat_map, length, map};
ghost use Rattle.std.specs.Prelude.{slice_index_or, zip, All, OnErr, OnOk};
ghost use Rattle.std.specs.Fmt.{signed_decimal};
ghost use Rattle.vms_base.specs.Common.{IsHeader, counter_count};
ghost use Rattle.vms_text.specs.Common.{IsKnown, counter_words, sentence, Begins, text_of};
ghost use Rattle.vms_header.specs.Laws.{IsWritable};
ghost use Rattle.vms_header.specs.Spelling.{base_line_words, base_lines_from, counter_line_words, cpus_words};
ghost use Rattle.vms_header.specs.Spelling.{item_words, spelled_header, version_words, zone_line_words};

use vms_base::{CounterId, Decl, Header, ItemDecl, Memory, ZoneName, ZoneSize, kind_name};
use vms_text::{Word, words_of_counter, write_words};

/// Appends a header in its one spelling. After a failure `out` may end in a part of it.
pub fn write_header(out: &mut Vec<u8>, header: &Header) -> Result<(), Memory>
    requires { IsWritable header.now }
    ensures ok { OnOk result (out.new.items ≡ out.old.items ++ spelled_header header.now) }
    ensures err { OnErr result (Begins out.old.items out.new.items) }
{
    write_opening(out, header)?;
    write_items(out, header.items.as_slice())?;
    write_zones(out, header.layout.zones(), header.sizes.as_slice())?;
    write_bases(out, header)?;
    write_counters(out, header.counters.as_slice())?;
    write_words(out, &[Word::Text(b"go")])
}

/// Appends the line of the version and the line of the CPUs.
fn write_opening(out: &mut Vec<u8>, header: &Header) -> Result<(), Memory>
    ensures ok { OnOk result (out.new.items
        ≡ out.old.items ++ (sentence (version_words header.now) ++ sentence (cpus_words header.now))) }
    ensures err { OnErr result (Begins out.old.items out.new.items) }
{
    let version = word_of_version(header.layout.positions() == 16);
    write_words(out, &[Word::Text(b"vmtrace"), version])?;
    let cpus = Word::Unsigned(u64::from(header.layout.cpus()));
    write_words(out, &[Word::Text(b"cpus"), cpus])
}

#[inline]
fn word_of_version(wide: bool) -> Word<'static>
    ensures { text_of result ≡ (if wide then codes "2" else codes "1") }
{
    if wide {
        Word::Text(b"2")
    } else {
        Word::Text(b"1")
    }
}

/// Appends the line of each declared item.
fn write_items(out: &mut Vec<u8>, items: &[ItemDecl]) -> Result<(), Memory>
    ensures ok { OnOk result (out.new.items ≡ out.old.items ++ flat_map sentence (map item_words items.now)) }
    ensures err { OnErr result (Begins out.old.items out.new.items) }
{
    for item in items {
        write_item(out, item)?;
    }
    Ok(())
}

fn write_item(out: &mut Vec<u8>, item: &ItemDecl) -> Result<(), Memory>
    ensures ok { OnOk result (out.new.items ≡ out.old.items ++ sentence (item_words item.now)) }
    ensures err { OnErr result (Begins out.old.items out.new.items) }
{
    let class = word_of_class(item.node);
    let name = Word::Text(item.name.as_slice());
    if item.bytes {
        write_words(
            out,
            &[Word::Text(b"item"), class, name, Word::Text(b"bytes")],
        )
    } else {
        write_words(out, &[Word::Text(b"item"), class, name])
    }
}

#[inline]
fn word_of_class(node: bool) -> Word<'static>
    ensures { text_of result ≡ (if node then codes "node" else codes "zone") }
{
    if node {
        Word::Text(b"node")
    } else {
        Word::Text(b"zone")
    }
}

/// Appends the line of each zone, with its marks.
fn write_zones(out: &mut Vec<u8>, zones: &[ZoneName], sizes: &[ZoneSize]) -> Result<(), Memory>
    requires { length sizes.now ≡ length zones.now }
    ensures ok { OnOk result (out.new.items
        ≡ out.old.items ++ flat_map sentence (map zone_line_words (zip zones.now sizes.now))) }
    ensures err { OnErr result (Begins out.old.items out.new.items) }
{
    for (place, zone) in zones.iter().enumerate() {
        write_zone(out, *zone, sizes[place])?;
    }
    Ok(())
}

fn write_zone(out: &mut Vec<u8>, zone: ZoneName, size: ZoneSize) -> Result<(), Memory>
    ensures ok { OnOk result (out.new.items ≡ out.old.items ++ sentence (zone_line_words (zone, size))) }
    ensures err { OnErr result (Begins out.old.items out.new.items) }
{
    let node = Word::Unsigned(u64::from(zone.node));
    let kind = Word::Text(kind_name(zone.kind).as_bytes());
    let managed = Word::Unsigned(size.managed);
    let (min, low, high) = (
        Word::Unsigned(size.min),
        Word::Unsigned(size.low),
        Word::Unsigned(size.high),
    );
    write_words(
        out,
        &[Word::Text(b"zone"), node, kind, managed, min, low, high],
    )
}

/// Appends the line of each base other than 0.
fn write_bases(out: &mut Vec<u8>, header: &Header) -> Result<(), Memory>
    requires { IsHeader header.now }
    ensures ok { OnOk result (out.new.items
        ≡ out.old.items ++ flat_map sentence (base_lines_from header.now 0 header.now.bases)) }
    ensures err { OnErr result (Begins out.old.items out.new.items) }
{
    for counter in 0..header.bases.len() {
        write_base(out, header, counter)?;
    }
    Ok(())
}

/// Appends the line of a counter's base, unless it is 0.
fn write_base(out: &mut Vec<u8>, header: &Header, counter: usize) -> Result<(), Memory>
    requires header { IsHeader header.now }
    requires counter { counter < length header.now.bases }
    ensures ok { OnOk result (out.new.items ≡ out.old.items
        ++ flat_map sentence (base_line_words header.now counter (slice_index_or header.now.bases counter (pos 0)))) }
    ensures err { OnErr result (Begins out.old.items out.new.items) }
{
    let base = header.bases.get(counter);
    if base == 0 {
        return Ok(());
    }
    let id = CounterId {
        number: counter as u32,
    };
    write_base_line(out, header, id, base)
}

fn write_base_line(
    out: &mut Vec<u8>,
    header: &Header,
    counter: CounterId,
    base: i64,
) -> Result<(), Memory>
    requires { IsKnown header.now counter.number }
    ensures ok { OnOk result (out.new.items ≡ out.old.items
        ++ sentence (codes "base" ∷ counter_words header.now counter.number ++ signed_decimal base ∷ [])) }
    ensures err { OnErr result (Begins out.old.items out.new.items) }
{
    let (node, kind, item) = words_of_counter(header, counter);
    write_words(
        out,
        &[Word::Text(b"base"), node, kind, item, Word::Signed(base)],
    )
}

/// Appends the line of each percpu counter, with its batch.
fn write_counters(out: &mut Vec<u8>, counters: &[Decl]) -> Result<(), Memory>
    ensures ok { OnOk result (out.new.items
        ≡ out.old.items ++ flat_map sentence (map counter_line_words counters.now)) }
    ensures err { OnErr result (Begins out.old.items out.new.items) }
{
    for decl in counters {
        let batch = Word::Unsigned(u64::from(decl.batch));
        write_words(
            out,
            &[
                Word::Text(b"counter"),
                Word::Text(decl.name.as_slice()),
                batch,
            ],
        )?;
    }
    Ok(())
}
