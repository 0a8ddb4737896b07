ghost use Rattle.std.specs.Prelude.{◌≡◌, ◌∷◌, ◌%◌, ◌≤◌, [], flat_map, length};
ghost use Rattle.vms_base.specs.Common.{zone_items};
ghost use Rattle.vms_text.specs.Common.{entry_if_any, sentence, text_of};
ghost use Rattle.vms_gen.specs.Texts.{IsCpuCount, amount_word, header_lines, last_line, line_at, next_state};

use crate::spelling::{LineText, put_bytes, put_line};
use vms_base::item_names;
use vms_text::Word;

/// The state after a state.
pub(crate) fn next_state(state: u64) -> u64
    ensures { result ≡ next_state state }
{
    state
        .wrapping_mul(6_364_136_223_846_793_005)
        .wrapping_add(1_442_695_040_888_963_407)
}

/// The lines of the header.
pub(crate) fn header_text(cpus: u32) -> LineText
    requires { IsCpuCount cpus }
    ensures { result.items ≡ flat_map sentence (header_lines cpus) }
{
    let mut text = LineText::new();
    put_bytes(&mut text, b"vmtrace 1\n");
    put_line(
        &mut text,
        Word::Text(b"cpus"),
        &[Word::Unsigned(u64::from(cpus))],
    );
    put_bytes(&mut text, b"zone 0 Normal 262144 100 125 150\n");
    put_bytes(
        &mut text,
        b"base 0 Normal nr_free_pages 1000000\ncounter files 32\ngo\n",
    );
    text
}

/// The last line.
pub(crate) fn last_text() -> LineText
    ensures { result.items ≡ sentence last_line }
{
    let mut text = LineText::new();
    put_bytes(&mut text, b"report totals\n");
    text
}

/// The line of a state.
pub(crate) fn line_text(cpus: u32, state: u64) -> LineText
    requires { IsCpuCount cpus }
    ensures { result.items ≡ sentence (line_at cpus state) }
{
    let drawn = state >> 33;
    let cpu = Word::Cpu(lane(drawn / 16, cpus));
    let rest = drawn / 1024;
    let mut text = LineText::new();
    match drawn % 16 {
        0..=7 => put_line(
            &mut text,
            cpu,
            &[
                Word::Text(b"mod"),
                Word::Text(b"0"),
                Word::Text(b"Normal"),
                zone_item(rest),
                amount(rest / 8, 65, 32),
            ],
        ),
        8 | 9 => put_line(
            &mut text,
            cpu,
            &[
                Word::Text(b"inc"),
                Word::Text(b"0"),
                Word::Text(b"Normal"),
                Word::Text(b"nr_free_pages"),
            ],
        ),
        10 => put_line(
            &mut text,
            cpu,
            &[
                Word::Text(b"dec"),
                Word::Text(b"0"),
                Word::Text(b"node"),
                Word::Text(b"nr_dirty"),
            ],
        ),
        11 => put_line(
            &mut text,
            cpu,
            &[
                Word::Text(b"ev"),
                Word::Text(b"pgfault"),
                Word::Unsigned(rest % 4),
            ],
        ),
        12 => put_line(
            &mut text,
            cpu,
            &[
                Word::Text(b"cnt"),
                Word::Text(b"files"),
                amount(rest, 129, 64),
            ],
        ),
        13 => put_line(
            &mut text,
            cpu,
            &[Word::Text(b"fold"), Word::Unsigned(rest % u64::from(cpus))],
        ),
        14 if rest % 2 == 0 => put_bytes(&mut text, b"k pressure 0\n"),
        14 => put_bytes(&mut text, b"k normal 0\n"),
        _ if rest % 64 == 0 => put_bytes(&mut text, b"sync\n"),
        _ => put_line(
            &mut text,
            cpu,
            &[
                Word::Text(b"mod"),
                Word::Text(b"0"),
                Word::Text(b"node"),
                Word::Text(b"nr_file_pages"),
                amount(rest, 65, 32),
            ],
        ),
    }
    text
}

/// The remainder of a number by that of the CPUs.
fn lane(number: u64, cpus: u32) -> u32
    requires { 1 ≤ cpus }
    ensures { result ≡ number % cpus }
{
    (number % u64::from(cpus)) as u32
}

/// The name of the zone item that a number stands for.
fn zone_item(number: u64) -> Word<'static>
    ensures name { text_of result ∷ [] ≡ entry_if_any zone_items (number % 8) }
    ensures short { length (text_of result) ≤ 21 }
{
    Word::Text(item_names(false)[(number % 8) as usize].as_bytes())
}

/// The remainder of a number by a width, less a half of it.
fn amount(number: u64, width: u16, half: u16) -> Word<'static>
    requires { 1 ≤ width }
    ensures { text_of result ≡ amount_word number width half }
{
    Word::Signed((number % u64::from(width)) as i64 - i64::from(half))
}
