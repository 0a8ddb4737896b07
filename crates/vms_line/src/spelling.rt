ghost use Rattle.std.specs.Prelude.{◌≡◌, ◌++◌, ◌∷◌, [], ◌<◌, codes, decimal, length, map, option_map, slice_get, OnOk};
ghost use Rattle.std.specs.Prelude.{OnErr};
ghost use Rattle.std.specs.Fmt.{signed_decimal};
ghost use Rattle.std.specs.Int.{w64};
ghost use Rattle.std.specs.Int.RustNames.{FitsSigned};
ghost use Rattle.vms_base.specs.Common.{IsHeader, class_names, IsNode, IsPlace, IsZone};
ghost use Rattle.vms_line.specs.Laws.{IsActOf, IsDeclared, IsKnownValue, IsLineOf};
ghost use Rattle.vms_text.specs.Common.{IsKnown, counter_words, entry_if_any, place_words, sentence, Begins, spaced};
ghost use Rattle.vms_text.specs.Common.{text_of};
ghost use Rattle.vms_line.specs.Spelling.{act_words, boundary_words, event_word, lane_word, mark_word};
ghost use Rattle.vms_line.specs.Spelling.{node_number_words, pcpu_word, report_word, spelled_amount, spelled_line};
ghost use Rattle.vms_line.specs.Spelling.{system_word};

use vms_base::{
    CounterId, CpuId, EventId, Header, ItemDecl, ItemId, Memory, PcpuId, PlaceId, WaterMark,
    event_names, item_names, kind_name,
};
use vms_text::{
    Act, Boundary, Lane, Line, ReportKind, Word, is_in_bytes, name_of_item, words_of_counter,
    words_of_place, write_words,
};

/// Appends a line of the body in its one spelling, with the byte that ends it. After a failure `out` may end in a part
/// of it.
pub fn write_line(out: &mut Vec<u8>, header: &Header, line: &Line) -> Result<(), Memory>
    requires header { IsHeader header.now }
    requires line { IsLineOf header.now line.now }
    ensures ok { OnOk result (out.new.items ≡ out.old.items ++ spelled_line header.now line.now) }
    ensures err { OnErr result (Begins out.old.items out.new.items) }
{
    match *line {
        Line::Blank => write_words(out, &[]),
        Line::Lane(lane, act) => write_act(out, header, lane, act),
        Line::Boundary(boundary) => write_boundary(out, boundary),
    }
}

/// Appends a line of a lane.
fn write_act(out: &mut Vec<u8>, header: &Header, lane: Lane, act: Act) -> Result<(), Memory>
    requires header { IsHeader header.now }
    requires act { IsActOf header.now lane act }
    ensures ok { OnOk result (out.new.items ≡ out.old.items ++ sentence (lane_word lane ∷ act_words header.now act)) }
    ensures err { OnErr result (Begins out.old.items out.new.items) }
{
    let lane = first_word(lane);
    match act {
        Act::Mod(counter, pages) => write_change(out, header, lane, counter, pages),
        Act::Inc(counter) => write_counter(out, header, lane, b"inc", counter),
        Act::Dec(counter) => write_counter(out, header, lane, b"dec", counter),
        Act::Ev(event, n) => write_count(out, lane, event, n),
        Act::Cnt(counter, amount) => write_amount(out, header, lane, b"cnt", counter, amount),
        Act::Lim(counter, limit, amount) => write_limited(
            out, header, lane, counter, limit, amount,
        ),
        Act::Cmp(counter, number) => write_amount(out, header, lane, b"cmp", counter, number),
        Act::Sum(counter) => write_name(out, header, lane, b"sum", counter),
        Act::Rough(counter) => write_name(out, header, lane, b"rough", counter),
        Act::Csync(counter) => write_name(out, header, lane, b"csync", counter),
        Act::EvSum(event) => write_event(out, lane, event),
        Act::Fold(cpu) => write_cpu(out, lane, b"fold", cpu),
        Act::Water(zone, mark, index) => write_marked(out, header, lane, zone, mark, index),
        Act::Val(counter) => write_counter(out, header, lane, b"val", counter),
        Act::Snap(counter) => write_counter(out, header, lane, b"snap", counter),
        Act::Sys(item) => write_value(out, header, lane, item),
        Act::Pressure(node) => write_node(out, header, lane, b"pressure", node),
        Act::Normal(node) => write_node(out, header, lane, b"normal", node),
        Act::Dead(cpu) => write_cpu(out, lane, b"dead", cpu),
        Act::Kswapd(node, order, index) => write_turn(out, header, lane, node, order, index),
    }
}

/// Appends a line of `mod`, of a counter and an amount in pages.
#[inline]
fn write_change<'a>(
    out: &mut Vec<u8>,
    header: &'a Header,
    lane: Word<'a>,
    counter: CounterId,
    pages: i64,
) -> Result<(), Memory>
    requires header { IsHeader header.now }
    requires counter { IsKnown header.now counter.number }
    requires amount { FitsSigned w64 (spelled_amount header.now counter.number pages) }
    ensures ok { OnOk result (out.new.items ≡ out.old.items
        ++ sentence (text_of lane.entry ∷ codes "mod" ∷ counter_words header.now counter.number
        ++ signed_decimal (spelled_amount header.now counter.number pages) ∷ [])) }
    ensures err { OnErr result (Begins out.old.items out.new.items) }
{
    let (node, kind, item) = words_of_counter(header, counter);
    let amount = Word::Signed(written_amount(header, counter, pages));
    write_words(out, &[lane, Word::Text(b"mod"), node, kind, item, amount])
}

/// Appends a line of a lane whose words after the verb are a counter's.
#[inline]
fn write_counter<'a>(
    out: &mut Vec<u8>,
    header: &'a Header,
    lane: Word<'a>,
    verb: &'a [u8],
    counter: CounterId,
) -> Result<(), Memory>
    requires header { IsHeader header.now }
    requires counter { IsKnown header.now counter.number }
    ensures ok { OnOk result (out.new.items ≡ out.old.items
        ++ sentence (text_of lane.entry ∷ verb.now ∷ counter_words header.now counter.number)) }
    ensures err { OnErr result (Begins out.old.items out.new.items) }
{
    let (node, kind, item) = words_of_counter(header, counter);
    write_words(out, &[lane, Word::Text(verb), node, kind, item])
}

/// Appends a line of `ev`, of an event and how often it came.
#[inline]
fn write_count(out: &mut Vec<u8>, lane: Word<'_>, event: EventId, n: u64) -> Result<(), Memory>
    requires event { event.number < 8 }
    ensures ok { OnOk result (out.new.items ≡ out.old.items
        ++ sentence (text_of lane.entry ∷ codes "ev" ∷ event_word event.number ++ decimal n ∷ [])) }
    ensures err { OnErr result (Begins out.old.items out.new.items) }
{
    let verb = Word::Text(b"ev");
    write_words(out, &[lane, verb, name_of_event(event), Word::Unsigned(n)])
}

/// Appends a line of `evsum`, of an event.
#[inline]
fn write_event(out: &mut Vec<u8>, lane: Word<'_>, event: EventId) -> Result<(), Memory>
    requires event { event.number < 8 }
    ensures ok { OnOk result (out.new.items ≡ out.old.items
        ++ sentence (text_of lane.entry ∷ codes "evsum" ∷ event_word event.number)) }
    ensures err { OnErr result (Begins out.old.items out.new.items) }
{
    write_words(out, &[lane, Word::Text(b"evsum"), name_of_event(event)])
}

/// Appends a line of a lane whose word after the verb is a percpu counter's.
#[inline]
fn write_name<'a>(
    out: &mut Vec<u8>,
    header: &'a Header,
    lane: Word<'a>,
    verb: &'a [u8],
    counter: PcpuId,
) -> Result<(), Memory>
    requires header { IsHeader header.now }
    requires counter { IsDeclared header.now counter.number }
    ensures ok { OnOk result (out.new.items ≡ out.old.items
        ++ sentence (text_of lane.entry ∷ verb.now ∷ pcpu_word header.now counter.number)) }
    ensures err { OnErr result (Begins out.old.items out.new.items) }
{
    let name = name_of_counter(header, counter);
    write_words(out, &[lane, Word::Text(verb), name])
}

/// Appends a line of a lane whose words after the verb are a percpu counter's and a number.
#[inline]
fn write_amount<'a>(
    out: &mut Vec<u8>,
    header: &'a Header,
    lane: Word<'a>,
    verb: &'a [u8],
    counter: PcpuId,
    amount: i64,
) -> Result<(), Memory>
    requires header { IsHeader header.now }
    requires counter { IsDeclared header.now counter.number }
    ensures ok { OnOk result (out.new.items ≡ out.old.items
        ++ sentence (text_of lane.entry ∷ verb.now ∷ pcpu_word header.now counter.number ++ signed_decimal amount ∷ [])) }
    ensures err { OnErr result (Begins out.old.items out.new.items) }
{
    let name = name_of_counter(header, counter);
    write_words(out, &[lane, Word::Text(verb), name, Word::Signed(amount)])
}

/// Appends a line of `lim`, of a percpu counter, a limit and an amount.
#[inline]
fn write_limited<'a>(
    out: &mut Vec<u8>,
    header: &'a Header,
    lane: Word<'a>,
    counter: PcpuId,
    limit: i64,
    amount: i64,
) -> Result<(), Memory>
    requires header { IsHeader header.now }
    requires counter { IsDeclared header.now counter.number }
    ensures ok { OnOk result (out.new.items ≡ out.old.items
        ++ sentence (text_of lane.entry ∷ codes "lim" ∷ pcpu_word header.now counter.number
        ++ signed_decimal limit ∷ signed_decimal amount ∷ [])) }
    ensures err { OnErr result (Begins out.old.items out.new.items) }
{
    let name = name_of_counter(header, counter);
    let (limit, amount) = (Word::Signed(limit), Word::Signed(amount));
    write_words(out, &[lane, Word::Text(b"lim"), name, limit, amount])
}

/// Appends a line of a lane whose word after the verb is a CPU's number.
#[inline]
fn write_cpu<'a>(
    out: &mut Vec<u8>,
    lane: Word<'a>,
    verb: &'a [u8],
    cpu: CpuId,
) -> Result<(), Memory>
    ensures ok { OnOk result (out.new.items ≡ out.old.items
        ++ sentence (text_of lane.entry ∷ verb.now ∷ decimal cpu.number ∷ [])) }
    ensures err { OnErr result (Begins out.old.items out.new.items) }
{
    let number = Word::Unsigned(u64::from(cpu.number));
    write_words(out, &[lane, Word::Text(verb), number])
}

/// Appends a line of `ok`, of a zone, a watermark and the highest zone index.
#[inline]
fn write_marked<'a>(
    out: &mut Vec<u8>,
    header: &'a Header,
    lane: Word<'a>,
    zone: PlaceId,
    mark: WaterMark,
    index: u32,
) -> Result<(), Memory>
    requires header { IsHeader header.now }
    requires zone { IsZone header.now.layout zone.number }
    ensures ok { OnOk result (out.new.items ≡ out.old.items
        ++ sentence (text_of lane.entry ∷ codes "ok" ∷ place_words header.now zone.number ++ mark_word mark ∷ decimal index ∷ [])) }
    ensures err { OnErr result (Begins out.old.items out.new.items) }
{
    let (node, kind) = words_of_place(header, zone);
    let index = Word::Unsigned(u64::from(index));
    write_words(
        out,
        &[
            lane,
            Word::Text(b"ok"),
            node,
            kind,
            word_of_mark(mark),
            index,
        ],
    )
}

/// Appends a line of `sys`, of a system-wide value.
#[inline]
fn write_value<'a>(
    out: &mut Vec<u8>,
    header: &'a Header,
    lane: Word<'a>,
    item: ItemId,
) -> Result<(), Memory>
    requires header { IsHeader header.now }
    requires item { IsKnownValue header.now item.number }
    ensures ok { OnOk result (out.new.items ≡ out.old.items
        ++ sentence (text_of lane.entry ∷ codes "sys" ∷ system_word header.now item.number)) }
    ensures err { OnErr result (Begins out.old.items out.new.items) }
{
    let name = name_of_value(header, item);
    write_words(out, &[lane, Word::Text(b"sys"), name])
}

/// Appends a line of a lane whose word after the verb is a node's number.
#[inline]
fn write_node<'a>(
    out: &mut Vec<u8>,
    header: &'a Header,
    lane: Word<'a>,
    verb: &'a [u8],
    node: PlaceId,
) -> Result<(), Memory>
    requires header { IsHeader header.now }
    requires node { IsNode header.now.layout node.number }
    ensures ok { OnOk result (out.new.items ≡ out.old.items
        ++ sentence (text_of lane.entry ∷ verb.now ∷ node_number_words header.now node.number)) }
    ensures err { OnErr result (Begins out.old.items out.new.items) }
{
    let node = number_of_node(header, node);
    write_words(out, &[lane, Word::Text(verb), node])
}

/// Appends a line of `kswapd`, of a node, an order and the highest zone index.
#[inline]
fn write_turn<'a>(
    out: &mut Vec<u8>,
    header: &'a Header,
    lane: Word<'a>,
    node: PlaceId,
    order: u32,
    index: u32,
) -> Result<(), Memory>
    requires header { IsHeader header.now }
    requires node { IsNode header.now.layout node.number }
    ensures ok { OnOk result (out.new.items ≡ out.old.items
        ++ sentence (text_of lane.entry ∷ codes "kswapd" ∷ node_number_words header.now node.number
        ++ decimal order ∷ decimal index ∷ [])) }
    ensures err { OnErr result (Begins out.old.items out.new.items) }
{
    let node = number_of_node(header, node);
    let order = Word::Unsigned(u64::from(order));
    let index = Word::Unsigned(u64::from(index));
    write_words(out, &[lane, Word::Text(b"kswapd"), node, order, index])
}

/// Appends a boundary line.
fn write_boundary(out: &mut Vec<u8>, boundary: Boundary) -> Result<(), Memory>
    ensures ok { OnOk result (out.new.items ≡ out.old.items ++ sentence (boundary_words boundary)) }
    ensures err { OnErr result (Begins out.old.items out.new.items) }
{
    match boundary {
        Boundary::Sync => write_words(out, &[Word::Text(b"sync")]),
        Boundary::Offline(cpu) => {
            let number = Word::Unsigned(u64::from(cpu.number));
            write_words(out, &[Word::Text(b"offline"), number])
        }
        Boundary::Online(cpu) => {
            let number = Word::Unsigned(u64::from(cpu.number));
            write_words(out, &[Word::Text(b"online"), number])
        }
        Boundary::Flush => write_words(out, &[Word::Text(b"flush")]),
        Boundary::Report(kind) => write_words(out, &[Word::Text(b"report"), word_of_report(kind)]),
    }
}

#[inline]
fn first_word(lane: Lane) -> Word<'static>
    ensures { text_of result ≡ lane_word lane }
{
    match lane {
        Lane::Cpu(cpu) => Word::Cpu(cpu.number),
        Lane::Control => Word::Text(b"k"),
    }
}

#[inline]
fn word_of_mark(mark: WaterMark) -> Word<'static>
    ensures { text_of result ≡ mark_word mark }
{
    match mark {
        WaterMark::Min => Word::Text(b"min"),
        WaterMark::Low => Word::Text(b"low"),
        WaterMark::High => Word::Text(b"high"),
    }
}

#[inline]
fn word_of_report(kind: ReportKind) -> Word<'static>
    ensures { text_of result ≡ report_word kind }
{
    match kind {
        ReportKind::Vmstat => Word::Text(b"vmstat"),
        ReportKind::Zoneinfo => Word::Text(b"zoneinfo"),
        ReportKind::Totals => Word::Text(b"totals"),
        ReportKind::Counters => Word::Text(b"counters"),
    }
}

#[inline]
fn name_of_event(event: EventId) -> Word<'static>
    requires { event.number < 8 }
    ensures { text_of result ∷ [] ≡ event_word event.number }
{
    Word::Text(event_names()[event.number as usize].as_bytes())
}

#[inline]
fn name_of_counter(header: &Header, counter: PcpuId) -> Word<'_>
    requires { IsDeclared header.now counter.number }
    ensures { text_of result ∷ [] ≡ pcpu_word header.now counter.number }
{
    Word::Text(
        header.counters.as_slice()[counter.number as usize]
            .name
            .as_slice(),
    )
}

/// The name of a system-wide value.
#[inline]
fn name_of_value(header: &Header, item: ItemId) -> Word<'_>
    requires { IsKnownValue header.now item.number }
    ensures { text_of result ∷ [] ≡ system_word header.now item.number }
{
    let positions = header.layout.positions();
    if item.number < positions {
        name_of_item(header, false, item.number)
    } else {
        name_of_item(header, true, item.number - positions)
    }
}

/// The number of the node at a place.
#[inline]
fn number_of_node(header: &Header, node: PlaceId) -> Word<'_>
    requires { IsNode header.now.layout node.number }
    ensures { text_of result ∷ [] ≡ node_number_words header.now node.number }
{
    let zones = header.layout.zones().len();
    Word::Unsigned(u64::from(header.layout.nodes()[node.number as usize - zones]))
}

/// An amount of a counter as a trace gives it, in bytes where its item is.
#[inline]
fn written_amount(header: &Header, counter: CounterId, pages: i64) -> i64
    requires { FitsSigned w64 (spelled_amount header.now counter.number pages) }
    ensures { result ≡ spelled_amount header.now counter.number pages }
{
    if is_in_bytes(header, counter) {
        pages * 4096
    } else {
        pages
    }
}
