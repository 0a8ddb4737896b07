ghost use Rattle.std.specs.Prelude.{◌≡◌, ◌<◌, pos, replicate, slice_index_or, slice_set};
ghost use Rattle.std.specs.Int.{w8, w64, byte_at, cast_unsigned, to_le_bytes};
ghost use Rattle.vms_calls.specs.Common.{IsByte};
ghost use Rattle.vms_base.specs.Groups.{word_of_bytes, bytes_of_word};
ghost use Rattle.vms_words.specs.Lists.{list_told};

use std::marker::Model;
use vms_base::{Diffs, unpack};

/// The eight differentials of one CPU in a group, in the word that shows them. Contracts see the list.
#[derive(Clone, Copy, Debug)]
pub struct PackedDiffs {
    word: u64,
}

impl Model for PackedDiffs {
    ghost use Rattle.std.specs.Prelude.{◌^◌, ◌<◌};
    ghost use Rattle.vms_calls.specs.Common.{Diffs};
    ghost use Rattle.vms_base.specs.Groups.{word_of_bytes};

    ghost Value = { Diffs };

    ghost use Rattle.vms_words.specs.Lists.{list_told, word-told};

    ghost view = { λ d. list_told d.word };

    ghost invariant = { λ d. d.word < 2 ^ 64 };

    ghost inverse = { λ w. record { word = word_of_bytes w.values } };

    ghost inverse_ok = { λ d fits i. record { word = word-told d.word fits i } };
}

impl PackedDiffs {
    /// Eight times 0.
    #[inline]
    pub fn zeros() -> PackedDiffs
        ensures { result.values ≡ replicate 8 (pos 0) }
    {
        PackedDiffs { word: 0 }
    }

    /// One of the differentials, in pages.
    #[inline]
    pub fn entry(&self, position: u32) -> i64
        requires { position < 8 }
        ensures value { result ≡ slice_index_or self.now.values position (pos 0) }
        ensures byte { IsByte result }
    {
        i64::from(byte_of(self.word, position).cast_signed())
    }

    /// The list that a word shows.
    #[inline]
    pub(crate) fn of_word(word: u64) -> PackedDiffs
        ensures { result ≡ list_told word }
    {
        PackedDiffs { word }
    }

    /// The word that shows the list.
    #[inline]
    pub(crate) fn word(&self) -> u64
        ensures value { result ≡ word_of_bytes self.now.values }
        ensures read { bytes_of_word result ≡ self.now.values }
    {
        self.word
    }

    /// The list as a step names it.
    #[inline]
    pub(crate) fn list(&self) -> Diffs
        ensures { result ≡ self.now }
    {
        unpack(self.word)
    }

    /// The list with one entry changed.
    #[inline]
    pub(crate) fn with_entry(&self, position: u32, differential: i64) -> PackedDiffs
        requires position { position < 8 }
        requires byte { IsByte differential }
        ensures { result.values ≡ slice_set self.now.values position differential }
    {
        PackedDiffs {
            word: with_byte(self.word, position, to_byte(differential)),
        }
    }
}

/// A differential in two's complement.
#[inline]
fn to_byte(differential: i64) -> u8
    requires { IsByte differential }
    ensures { result ≡ cast_unsigned w8 differential }
{
    (differential as i8).cast_unsigned()
}

/// The byte at a position of a word, counted from the lowest.
#[inline]
fn byte_of(word: u64, position: u32) -> u8
    requires { position < 8 }
    ensures { result ≡ byte_at position word }
{
    ((word >> (8 * position)) % 256) as u8
}

/// The word with the byte at a position changed.
#[inline]
fn with_byte(word: u64, position: u32, byte: u8) -> u64
    requires { position < 8 }
    ensures { to_le_bytes w64 result ≡ slice_set (to_le_bytes w64 word) position byte }
{
    let low = 8 * position;
    let old = u64::from(byte_of(word, position)) << low;
    let new = u64::from(byte) << low;
    word - old + new
}
