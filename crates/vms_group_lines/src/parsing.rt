ghost use Rattle.std.specs.Prelude.{◌≡◌, ◌∷◌, [], MatchOption, bytes_eq, codes, false, map, true};
ghost use Rattle.std.specs.Str.Parse.{digits_value};
ghost use Rattle.vms_text.specs.Common.{is_numeral};
ghost use Rattle.vms_group_lines.specs.Headers.{IsGroupHeader};
ghost use Rattle.vms_group_lines.specs.Lines.{amount_field, boundary_line, is_lane_word, lane_cpu, lane_line};
ghost use Rattle.vms_group_lines.specs.Lines.{read_group_line, read_words};

use crate::names::group_field;
use crate::{GroupCause, GroupHeader, GroupLine};
use arrayvec::ArrayVec;
use vms_base::CpuId;
use vms_group_core::GroupCall;
use vms_text::{cut_line, is_ignored, is_number, read_signed, read_within};

/// The most bytes of a line.
pub(crate) const MOST_LINE: usize = 200;

/// Reads a line of the body, without its newline.
pub(crate) fn read_line(header: &GroupHeader, line: &[u8]) -> Result<GroupLine, GroupCause>
    requires { IsGroupHeader header.now }
    ensures { result ≡ read_group_line header.now line.now }
{
    if line.len() > MOST_LINE {
        return Err(GroupCause::LineTooLong);
    }
    if is_ignored(line) {
        return Ok(GroupLine::Blank);
    }
    let mut words = ArrayVec::new();
    if cut_line(&mut words, line) {
        read_words(header, words.as_slice())
    } else {
        Err(GroupCause::Malformed)
    }
}

/// What the words of a line say: its first word is a lane's, or that of a boundary line.
fn read_words(header: &GroupHeader, words: &[&[u8]]) -> Result<GroupLine, GroupCause>
    requires { IsGroupHeader header.now }
    ensures { result ≡ read_words header.now (map (λ word. word.now) words.now) }
{
    let [first, rest @ ..] = words else {
        return Err(GroupCause::Malformed);
    };
    match lane_digits(first) {
        Some(digits) => lane_line(header, digits, rest),
        None => boundary_line(words),
    }
}

/// The digits after the `c` of a lane's word.
#[inline]
fn lane_digits(word: &[u8]) -> Option<&[u8]>
    ensures { MatchOption result (is_lane_word word.now ≡ false)
        (λ digits. (word.now ≡ 99 ∷ digits.now) × (is_numeral digits.now ≡ true)) }
{
    match word {
        [b'c', digits @ ..] if is_number(digits) => Some(digits),
        _ => None,
    }
}

/// The words after `c` and a number.
fn lane_line(header: &GroupHeader, digits: &[u8], words: &[&[u8]]) -> Result<GroupLine, GroupCause>
    requires header { IsGroupHeader header.now }
    requires number { is_numeral digits.now ≡ true }
    ensures { result ≡ lane_line header.now (digits_value 10 digits.now) (map (λ word. word.now) words.now) }
{
    match words {
        [verb, name] => named_line(header, digits, verb, name),
        [verb, name, delta] => change_line(header, digits, verb, name, delta),
        _ => Err(GroupCause::Malformed),
    }
}

/// The words `flush NAME` or `value NAME` after a lane's.
fn named_line(
    header: &GroupHeader,
    digits: &[u8],
    verb: &[u8],
    name: &[u8],
) -> Result<GroupLine, GroupCause>
    requires header { IsGroupHeader header.now }
    requires number { is_numeral digits.now ≡ true }
    ensures { result ≡ lane_line header.now (digits_value 10 digits.now) (verb.now ∷ name.now ∷ []) }
{
    if is_flush(verb) {
        let cpu = lane_cpu(header, digits)?;
        let group = group_field(header, name)?;
        Ok(GroupLine::Lane(cpu, GroupCall::Flush(group)))
    } else if is_value(verb) {
        let cpu = lane_cpu(header, digits)?;
        let group = group_field(header, name)?;
        Ok(GroupLine::Lane(cpu, GroupCall::Value(group)))
    } else {
        Err(GroupCause::Malformed)
    }
}

/// The words `add NAME DELTA` after a lane's.
fn change_line(
    header: &GroupHeader,
    digits: &[u8],
    verb: &[u8],
    name: &[u8],
    delta: &[u8],
) -> Result<GroupLine, GroupCause>
    requires header { IsGroupHeader header.now }
    requires number { is_numeral digits.now ≡ true }
    ensures { result
        ≡ lane_line header.now (digits_value 10 digits.now) (verb.now ∷ name.now ∷ delta.now ∷ []) }
{
    if is_add(verb) {
        let cpu = lane_cpu(header, digits)?;
        let group = group_field(header, name)?;
        let amount = amount_field(delta)?;
        Ok(GroupLine::Lane(cpu, GroupCall::Change(group, amount)))
    } else {
        Err(GroupCause::Malformed)
    }
}

/// Whether a word is `add`.
#[inline]
fn is_add(word: &[u8]) -> bool
    ensures { result ≡ bytes_eq word.now (codes "add") }
{
    matches!(word, b"add")
}

/// Whether a word is `flush`.
#[inline]
fn is_flush(word: &[u8]) -> bool
    ensures { result ≡ bytes_eq word.now (codes "flush") }
{
    matches!(word, b"flush")
}

/// Whether a word is `value`.
#[inline]
fn is_value(word: &[u8]) -> bool
    ensures { result ≡ bytes_eq word.now (codes "value") }
{
    matches!(word, b"value")
}

/// The CPU of a lane.
fn lane_cpu(header: &GroupHeader, digits: &[u8]) -> Result<CpuId, GroupCause>
    requires header { IsGroupHeader header.now }
    requires number { is_numeral digits.now ≡ true }
    ensures { result ≡ lane_cpu header.now (digits_value 10 digits.now) }
{
    match read_within(digits, 0, u64::from(header.tree.cpus) - 1) {
        Some(number) => Ok(CpuId {
            number: number as u32,
        }),
        None => Err(GroupCause::UnknownLane),
    }
}

/// A signed number of 64 bits.
fn amount_field(word: &[u8]) -> Result<i64, GroupCause>
    ensures { result ≡ amount_field word.now }
{
    read_signed(word).ok_or(GroupCause::BadNumber)
}

/// A line between two phases.
fn boundary_line(words: &[&[u8]]) -> Result<GroupLine, GroupCause>
    ensures { result ≡ boundary_line (map (λ word. word.now) words.now) }
{
    match words {
        [word] => sync_line(word),
        [word, kind] => report_line(word, kind),
        _ => Err(GroupCause::Malformed),
    }
}

/// The word `sync`.
fn sync_line(word: &[u8]) -> Result<GroupLine, GroupCause>
    ensures { result ≡ boundary_line (word.now ∷ []) }
{
    if word == b"sync".as_slice() {
        Ok(GroupLine::Sync)
    } else {
        Err(GroupCause::Malformed)
    }
}

/// The words `report groups`.
fn report_line(word: &[u8], kind: &[u8]) -> Result<GroupLine, GroupCause>
    ensures { result ≡ boundary_line (word.now ∷ kind.now ∷ []) }
{
    if word == b"report".as_slice() && kind == b"groups".as_slice() {
        Ok(GroupLine::Report)
    } else {
        Err(GroupCause::Malformed)
    }
}
