ghost use Rattle.std.specs.Prelude.{◌≡◌, [], ◌∷◌, ◌&&◌, MatchOption};
ghost use Rattle.vms_text.specs.Common.{is_clean, words_of};
ghost use Rattle.vms_written_lines.specs.Words.{are_none};

use std::marker::Model;
use vms_text::{is_clean, next_word, word_length};

/// The words of a line that are still to be read, and whether the bytes between those that were read are blanks.
#[derive(Drop)]
pub(crate) struct Words<'a> {
    rest: &'a [u8],
    clean: bool,
}

impl<'a> Model for Words<'a> {
    ghost use Rattle.std.specs.Prelude.{◌&&◌};
    ghost use Rattle.vms_text.specs.Common.{is_clean, words_of};
    ghost use Rattle.vms_written_lines.specs.Words.{WordsLeft};

    ghost Value = { WordsLeft };

    ghost view = { λ w. record { words = words_of w.rest.now; clean = w.clean && is_clean w.rest.now } };
}

impl<'a> Words<'a> {
    /// The words of a line.
    #[inline]
    pub(crate) fn of(line: &'a [u8]) -> Words<'a>
        ensures { result ≡ record { words = words_of line.now; clean = is_clean line.now } }
    {
        Words {
            rest: line,
            clean: true,
        }
    }

    /// The next word.
    #[inline(always)]
    pub(crate) fn next(&mut self) -> Option<&'a [u8]>
        ensures words { MatchOption result (self.old.words ≡ [])
            (λ word. self.old.words ≡ word.now ∷ self.new.words) }
        ensures clean { self.new.clean ≡ self.old.clean }
    {
        match self.rest {
            [first, rest @ ..] if first.is_ascii_graphic() && matches!(rest, [] | [b' ', ..]) => {
                let word = &self.rest[..1];
                self.rest = without_space(rest);
                Some(word)
            }
            _ => self.next_of_any_length(),
        }
    }

    /// The next word, which mostly has more than one byte.
    #[inline(never)]
    fn next_of_any_length(&mut self) -> Option<&'a [u8]>
        ensures words { MatchOption result (self.old.words ≡ [])
            (λ word. self.old.words ≡ word.now ∷ self.new.words) }
        ensures clean { self.new.clean ≡ self.old.clean }
    {
        let end = word_length(self.rest);
        if end == 0 {
            return self.next_after_others();
        }
        let word = &self.rest[..end];
        self.rest = without_space(&self.rest[end..]);
        Some(word)
    }

    /// The next word, whatever stands before it.
    #[inline(never)]
    fn next_after_others(&mut self) -> Option<&'a [u8]>
        ensures words { MatchOption result (self.old.words ≡ [])
            (λ word. self.old.words ≡ word.now ∷ self.new.words) }
        ensures clean { self.new.clean ≡ self.old.clean }
    {
        let (begin, end) = next_word(self.rest, 0)?;
        let word = &self.rest[begin..end];
        self.clean &= is_clean(&self.rest[..begin]);
        self.rest = &self.rest[end..];
        Some(word)
    }

    /// Whether no word is left, and each byte between the words was a blank.
    #[inline]
    pub(crate) fn are_read(&self) -> bool
        ensures { result ≡ (self.now.clean && are_none self.now.words) }
    {
        self.clean
            && (self.rest.is_empty() || is_clean(self.rest) && next_word(self.rest, 0).is_none())
    }
}

/// The bytes without the space that they begin with, if they do.
#[inline]
fn without_space(bytes: &[u8]) -> &[u8]
    ensures words { words_of result.now ≡ words_of bytes.now }
    ensures clean { is_clean result.now ≡ is_clean bytes.now }
{
    match bytes {
        [b' ', rest @ ..] => rest,
        _ => bytes,
    }
}
