ghost use Rattle.std.specs.Prelude.{◌≡◌, ℕ, List, [], ◌∷◌, IfSome, MatchOption, bytes_eq, codes, false, map, take};
ghost use Rattle.std.specs.Prelude.{true};
ghost use Rattle.std.specs.Result.{result_ok};
ghost use Rattle.std.specs.Str.Parse.{digits_value};
ghost use Rattle.vms_base.specs.Common.{IsHeader};
ghost use Rattle.vms_text.specs.Common.{is_numeral, space_parts, words_of, is_clean, is_comment, is_ignored};
ghost use Rattle.vms_line.specs.Body.{bare_boundary, boundary_line, boundary_of, control_line, cpu_line, is_cpu_word};
ghost use Rattle.vms_line.specs.Body.{read_line, read_words, report_named};
ghost use Rattle.vms_line.specs.Fields.{known_cpu};
ghost use Rattle.vms_line.specs.Laws.{IsSpelled, LinesAreKnown};

use crate::fields::{cpu_field, known_cpu};
use crate::forms::read_act;
use crate::{Boundary, Lane, Line, LineCause, ReportKind};
use arrayvec::ArrayVec;
use vms_base::{CpuId, Header};
use vms_text::{cut_at_spaces, cut_line, is_number, read_unsigned};

/// The most bytes of a line.
const MOST_LINE: usize = 200;

/// Reads a line of the body, without its newline.
pub fn parse_line(header: &Header, line: &[u8]) -> Result<Line, LineCause>
    requires { IsHeader header.now }
    ensures { result ≡ read_line header.now line.now }
{
    if line.len() > MOST_LINE {
        return Err(LineCause::LineTooLong);
    }
    let mut words = ArrayVec::new();
    let clean = cut_line(&mut words, line);
    let words = words.as_slice();
    if are_ignored(words, clean) {
        Ok(Line::Blank)
    } else if clean {
        read_words(header, words)
    } else {
        Err(LineCause::Malformed)
    }
}

/// Reads a line of the body that stands in its one spelling, without its newline. It is quicker than `parse_line`, and
/// answers nothing where another spelling, or none, is found.
#[inline(always)]
pub fn parse_spelled(header: &Header, line: &[u8]) -> Option<Line>
    requires { IsHeader header.now }
    ensures value { result ≡ result_ok (read_words header.now (space_parts line.now)) }
    ensures spelled { IfSome result (IsSpelled header.now line.now) }
{
    let mut parts = ArrayVec::new();
    cut_at_spaces(&mut parts, line);
    match read_words(header, parts.as_slice()) {
        Ok(said) => Some(said),
        Err(_) => None,
    }
}

/// The law that every line that is read is one of its header.
pub fn lines_are_known()
    ensures { LinesAreKnown }
{}

/// Whether a line is ignored that has these first words; `clean` says whether each of its bytes is a blank or one of a
/// word.
fn are_ignored(words: &[&[u8]], clean: bool) -> bool
    ensures { (line : List ℕ) → map (λ word. word.now) words.now ≡ take 8 (words_of line) → clean ≡ is_clean line
        → result ≡ is_ignored line }
{
    match words {
        [] => clean,
        [first, ..] => begins_remark(first),
    }
}

/// Whether a word begins with `#`.
fn begins_remark(word: &[u8]) -> bool
    ensures { result ≡ is_comment (word.now ∷ []) }
{
    matches!(word, [b'#', ..])
}

/// What the words of a line say: its first word is a lane's, or that of a boundary line.
#[inline(always)]
fn read_words(header: &Header, words: &[&[u8]]) -> Result<Line, LineCause>
    requires { IsHeader header.now }
    ensures { result ≡ read_words header.now (map (λ word. word.now) words.now) }
{
    let [first, rest @ ..] = words else {
        return Err(LineCause::Malformed);
    };
    if is_control_word(first) {
        return control_line(header, rest);
    }
    match lane_digits(first) {
        Some(digits) => cpu_line(header, digits, rest),
        None => boundary_line(header, words),
    }
}

/// Whether a word is `k`.
#[inline]
fn is_control_word(word: &[u8]) -> bool
    ensures { result ≡ bytes_eq word.now (codes "k") }
{
    matches!(word, b"k")
}

/// The digits after the `c` of a lane's word.
#[inline]
fn lane_digits(word: &[u8]) -> Option<&[u8]>
    ensures { MatchOption result (is_cpu_word word.now ≡ false)
        (λ digits. (word.now ≡ 99 ∷ digits.now) × (is_numeral digits.now ≡ true)) }
{
    match word {
        [b'c', digits @ ..] if is_number(digits) => Some(digits),
        _ => None,
    }
}

/// The words after `k`.
#[inline(never)]
fn control_line(header: &Header, words: &[&[u8]]) -> Result<Line, LineCause>
    requires { IsHeader header.now }
    ensures { result ≡ control_line header.now (map (λ word. word.now) words.now) }
{
    let [verb, fields @ ..] = words else {
        return Err(LineCause::Malformed);
    };
    let act = read_act(header, true, verb, fields)?;
    Ok(Line::Lane(Lane::Control, act))
}

/// The words after `c` and a number: their form is judged before the CPU, and the CPU before the fields.
#[inline(always)]
fn cpu_line(header: &Header, digits: &[u8], words: &[&[u8]]) -> Result<Line, LineCause>
    requires header { IsHeader header.now }
    requires number { is_numeral digits.now ≡ true }
    ensures { result ≡ cpu_line header.now (digits_value 10 digits.now) (map (λ word. word.now) words.now) }
{
    let [verb, fields @ ..] = words else {
        return Err(LineCause::Malformed);
    };
    let act = match read_act(header, false, verb, fields) {
        Err(LineCause::Malformed) => return Err(LineCause::Malformed),
        act => act,
    };
    let cpu = lane_cpu(header, digits)?;
    Ok(Line::Lane(Lane::Cpu(cpu), act?))
}

/// The CPU of a lane; a number of more than 64 bits is of none.
fn lane_cpu(header: &Header, digits: &[u8]) -> Result<CpuId, LineCause>
    requires header { IsHeader header.now }
    requires number { is_numeral digits.now ≡ true }
    ensures { result ≡ known_cpu header.now (digits_value 10 digits.now) }
{
    match read_unsigned(digits) {
        Some(number) => known_cpu(header, number),
        None => Err(LineCause::UnknownLane),
    }
}

/// A line between two phases.
#[inline(never)]
fn boundary_line(header: &Header, words: &[&[u8]]) -> Result<Line, LineCause>
    ensures { result ≡ boundary_line header.now (map (λ word. word.now) words.now) }
{
    match words {
        [word] => bare_boundary(word),
        [word, field] => boundary_of(header, word, field),
        _ => Err(LineCause::Malformed),
    }
}

/// A boundary line of one word.
fn bare_boundary(word: &[u8]) -> Result<Line, LineCause>
    ensures { result ≡ bare_boundary word.now }
{
    match word {
        b"sync" => Ok(Line::Boundary(Boundary::Sync)),
        b"flush" => Ok(Line::Boundary(Boundary::Flush)),
        _ => Err(LineCause::Malformed),
    }
}

/// A boundary line of two words.
fn boundary_of(header: &Header, word: &[u8], field: &[u8]) -> Result<Line, LineCause>
    ensures { result ≡ boundary_of header.now word.now field.now }
{
    match word {
        b"offline" => {
            let cpu = cpu_field(header, field)?;
            Ok(Line::Boundary(Boundary::Offline(cpu)))
        }
        b"online" => {
            let cpu = cpu_field(header, field)?;
            Ok(Line::Boundary(Boundary::Online(cpu)))
        }
        b"report" => report_named(field),
        _ => Err(LineCause::Malformed),
    }
}

/// The report that a word names.
fn report_named(word: &[u8]) -> Result<Line, LineCause>
    ensures { result ≡ report_named word.now }
{
    match word {
        b"vmstat" => Ok(Line::Boundary(Boundary::Report(ReportKind::Vmstat))),
        b"zoneinfo" => Ok(Line::Boundary(Boundary::Report(ReportKind::Zoneinfo))),
        b"totals" => Ok(Line::Boundary(Boundary::Report(ReportKind::Totals))),
        b"counters" => Ok(Line::Boundary(Boundary::Report(ReportKind::Counters))),
        _ => Err(LineCause::Malformed),
    }
}
