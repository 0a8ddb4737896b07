ghost use Rattle.std.specs.Prelude.{◌≡◌, ◌∷◌, ◌++◌, [], map, take, not};
ghost use Rattle.std.specs.List.{filter, list_all};
ghost use Rattle.vms_text.specs.Words.{is_blank_byte, is_empty, is_wrong_byte, space_parts, words_of};
ghost use Rattle.vms_text.specs.Reading.{is_clean, is_ignored};

use crate::marks::{cut_at_marks, marks_of};
use crate::scanning::next_word;
use arrayvec::ArrayVec;

/// The first eight words of a line.
pub fn cut_words(line: &[u8]) -> ArrayVec<&[u8], 8>
    ensures { map (λ word. word.now) result.items ≡ take 8 (words_of line.now) }
{
    let mut words = ArrayVec::new();
    cut_line(&mut words, line);
    words
}

/// Cuts a line into words, of which the first eight are added to `words`, which is empty. Answers whether each byte of
/// the line is a blank or one of a word.
#[inline]
pub fn cut_line<'a>(words: &mut ArrayVec<&'a [u8], 8>, line: &'a [u8]) -> bool
    requires { words.old.items ≡ [] }
    ensures words { map (λ word. word.now) words.new.items ≡ take 8 (words_of line.now) }
    ensures clean { result ≡ is_clean line.now }
{
    let mut clean = true;
    let mut begin = 0;
    for (at, byte) in line.iter().enumerate() {
        if !byte.is_ascii_graphic() {
            add_word(words, &line[begin..at]);
            clean &= is_blank(*byte);
            begin = at + 1;
        }
    }
    add_word(words, &line[begin..]);
    clean
}

/// Cuts a line at its spaces alone. The first eight parts are added to `parts`, which is empty.
#[inline]
pub fn cut_at_spaces<'a>(parts: &mut ArrayVec<&'a [u8], 8>, line: &'a [u8])
    requires { parts.old.items ≡ [] }
    ensures { map (λ part. part.now) parts.new.items ≡ take 8 (space_parts line.now) }
{
    match marks_of(line) {
        Some(marks) => cut_at_marks(parts, line, marks),
        None => cut_byte_by_byte(parts, line),
    }
}

/// Cuts a line of any length at its spaces alone.
fn cut_byte_by_byte<'a>(parts: &mut ArrayVec<&'a [u8], 8>, line: &'a [u8])
    requires { parts.old.items ≡ [] }
    ensures { map (λ part. part.now) parts.new.items ≡ take 8 (space_parts line.now) }
{
    let mut begin = 0;
    for (at, byte) in line.iter().enumerate() {
        if *byte == b' ' {
            add_part(parts, &line[begin..at]);
            begin = at + 1;
        }
    }
    add_part(parts, &line[begin..]);
}

/// Adds a part, unless eight are there.
#[inline]
pub(crate) fn add_part<'a>(parts: &mut ArrayVec<&'a [u8], 8>, part: &'a [u8])
    ensures { map (λ part. part.now) parts.new.items
        ≡ take 8 (map (λ part. part.now) parts.old.items ++ part.now ∷ []) }
{
    if !parts.is_full() {
        parts.push(part);
    }
}

/// Adds a word, unless it is empty or eight are there.
#[inline]
fn add_word<'a>(words: &mut ArrayVec<&'a [u8], 8>, word: &'a [u8])
    ensures { map (λ word. word.now) words.new.items
        ≡ take 8 (map (λ word. word.now) words.old.items ++ filter (λ word. not (is_empty word)) (word.now ∷ [])) }
{
    if !words.is_full() && !word.is_empty() {
        words.push(word);
    }
}

/// Whether a line holds nothing but blanks, or its first word begins with `#`.
pub fn is_ignored(line: &[u8]) -> bool
    ensures { result ≡ is_ignored line.now }
{
    match next_word(line, 0) {
        Some((begin, _)) => line[begin] == b'#',
        None => are_blanks(line),
    }
}

fn are_blanks(bytes: &[u8]) -> bool
    ensures { result ≡ list_all is_blank_byte bytes.now }
{
    bytes.iter().all(|byte| is_blank(*byte))
}

/// Whether each byte of a line is a blank or one of a word.
pub fn is_clean(line: &[u8]) -> bool
    ensures { result ≡ is_clean line.now }
{
    line.iter()
        .all(|byte| is_blank(*byte) || byte.is_ascii_graphic())
}

/// Whether a byte is a space, a tab or byte 13.
#[inline]
fn is_blank(byte: u8) -> bool
    ensures { result ≡ is_blank_byte byte }
{
    matches!(byte, b' ' | b'\t' | b'\r')
}
