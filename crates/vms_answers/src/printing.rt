ghost use Rattle.std.specs.Prelude.{◌≡◌, ◌∷◌, ◌++◌, codes, decimal, if◌then◌else◌, map, OnErr, OnOk};
ghost use Rattle.std.specs.Fmt.{signed_decimal};
ghost use Rattle.vms_world.specs.Common.{sentence, text_of};
ghost use Rattle.vms_text.specs.Writing.{Begins};
ghost use Rattle.vms_answers.specs.AnswerLines.{answer_line, free_words, kind_word, yes_or_no};

use crate::Answer;
use crate::test_lines::write_tested;
use itoa::Buffer;
use vms_base::{Header, Memory, PlaceId, kind_name};
use vms_calls::Balance;
use vms_text::{Word, write_words};

/// Appends the line of the answer of a line, which has this number in the trace. After a failure `out` may end in a
/// part of it.
pub fn write_answer(
    out: &mut Vec<u8>,
    header: &Header,
    number: u32,
    answer: &Answer,
) -> Result<(), Memory>
    ensures ok { OnOk result (out.new.items ≡ out.old.items ++ answer_line header.now number answer.now) }
    ensures err { OnErr result (Begins out.old.items out.new.items) }
{
    match *answer {
        Answer::Tested(verdict) => write_tested(out, number, verdict),
        Answer::Value(pages) => write_unsigned(out, number, b"value ", pages),
        Answer::Snapshot(pages) => write_unsigned(out, number, b"snapshot ", pages),
        Answer::System(pages) => write_unsigned(out, number, b"system ", pages),
        Answer::Events(sum) => write_unsigned(out, number, b"events ", sum),
        Answer::Count(count) => write_signed(out, number, b"count ", count),
        Answer::Total(sum) => write_signed(out, number, b"sum ", sum),
        Answer::Compared(compare) => {
            let sign = Word::Signed(i64::from(compare.sign));
            write_line(
                out,
                number,
                &[Word::Text(b"compare"), sign, word_of_rough(compare.rough)],
            )
        }
        Answer::Limited(made) => {
            write_line(out, number, &[Word::Text(b"limited"), word_of_yes(made)])
        }
        Answer::Balanced(Balance::Yes(zone, verdict)) => {
            write_balanced(out, header, number, zone, verdict.free, verdict.fast)
        }
        Answer::Balanced(Balance::No) => write_line(out, number, &[Word::Text(b"unbalanced")]),
    }
}

/// Appends `line N: `.
fn write_label(out: &mut Vec<u8>, number: u32) -> Result<(), Memory>
    ensures ok { OnOk result (out.new.items ≡ out.old.items ++ (codes "line " ++ decimal number ++ codes ": ")) }
    ensures err { OnErr result (Begins out.old.items out.new.items) }
{
    let mut buffer = Buffer::new();
    out.extend_from_slice(b"line ")?;
    out.extend_from_slice(buffer.format(number).as_bytes())?;
    out.extend_from_slice(b": ")?;
    Ok(())
}

/// Appends the line of an answer of these words.
fn write_line(out: &mut Vec<u8>, number: u32, words: &[Word<'_>]) -> Result<(), Memory>
    ensures ok { OnOk result (out.new.items ≡ out.old.items
        ++ (codes "line " ++ decimal number ++ codes ": " ++ sentence (map text_of words.now))) }
    ensures err { OnErr result (Begins out.old.items out.new.items) }
{
    write_label(out, number)?;
    write_words(out, words)
}

/// Appends the line of an answer that ends in a number, which isn't negative.
fn write_unsigned(out: &mut Vec<u8>, number: u32, name: &[u8], value: u64) -> Result<(), Memory>
    ensures ok { OnOk result (out.new.items ≡ out.old.items
        ++ (codes "line " ++ decimal number ++ codes ": " ++ name.now ++ decimal value ++ codes "\n")) }
    ensures err { OnErr result (Begins out.old.items out.new.items) }
{
    let mut buffer = Buffer::new();
    write_label(out, number)?;
    out.extend_from_slice(name)?;
    out.extend_from_slice(buffer.format(value).as_bytes())?;
    out.push(b'\n')?;
    Ok(())
}

/// Appends the line of an answer that ends in a number.
fn write_signed(out: &mut Vec<u8>, number: u32, name: &[u8], value: i64) -> Result<(), Memory>
    ensures ok { OnOk result (out.new.items ≡ out.old.items
        ++ (codes "line " ++ decimal number ++ codes ": " ++ name.now ++ signed_decimal value ++ codes "\n")) }
    ensures err { OnErr result (Begins out.old.items out.new.items) }
{
    let mut buffer = Buffer::new();
    write_label(out, number)?;
    out.extend_from_slice(name)?;
    out.extend_from_slice(buffer.format(value).as_bytes())?;
    out.push(b'\n')?;
    Ok(())
}

/// Appends the line of a node that is balanced by this zone. A place that is no zone has no kind.
fn write_balanced(
    out: &mut Vec<u8>,
    header: &Header,
    number: u32,
    zone: PlaceId,
    free: u64,
    fast: bool,
) -> Result<(), Memory>
    ensures ok { OnOk result (out.new.items ≡ out.old.items ++ (codes "line " ++ decimal number ++ codes ": "
        ++ sentence (codes "balanced" ∷ kind_word header.now zone ++ free_words free fast))) }
    ensures err { OnErr result (Begins out.old.items out.new.items) }
{
    let balanced = Word::Text(b"balanced");
    let (label, pages, way) = (
        Word::Text(b"free"),
        Word::Unsigned(free),
        word_of_fast(fast),
    );
    let zones = header.layout.zones();
    let index = zone.number as usize;
    if index < zones.len() {
        let kind = Word::Text(kind_name(zones[index].kind).as_bytes());
        write_line(out, number, &[balanced, kind, label, pages, way])
    } else {
        write_line(out, number, &[balanced, label, pages, way])
    }
}

#[inline]
fn word_of_yes(yes: bool) -> Word<'static>
    ensures { text_of result ≡ yes_or_no yes }
{
    if yes {
        Word::Text(b"yes")
    } else {
        Word::Text(b"no")
    }
}

#[inline]
fn word_of_fast(fast: bool) -> Word<'static>
    ensures { text_of result ≡ (if fast then codes "fast" else codes "snapshot") }
{
    if fast {
        Word::Text(b"fast")
    } else {
        Word::Text(b"snapshot")
    }
}

#[inline]
fn word_of_rough(rough: bool) -> Word<'static>
    ensures { text_of result ≡ (if rough then codes "rough" else codes "sum") }
{
    if rough {
        Word::Text(b"rough")
    } else {
        Word::Text(b"sum")
    }
}
