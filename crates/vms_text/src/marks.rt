ghost use Rattle.std.specs.Prelude.{◌≡◌, ◌≢◌, ◌≤◌, ◌<◌, ◌*◌, ◌^◌, ◌++◌, ◌∷◌, [], ℕ, length, map, take, IfSome};
ghost use Rattle.std.specs.Int.{bit_at};
ghost use Rattle.vms_text.specs.Marks.{MarksSpaces};
ghost use Rattle.vms_text.specs.Words.{space_parts};

use crate::line_words::add_part;
use arrayvec::ArrayVec;
use std::simd::prelude::*;

/// Marks the spaces of a line, if it has 16 to 64 bytes.
#[inline]
pub(crate) fn marks_of(line: &[u8]) -> Option<u64>
    ensures { IfSome result (MarksSpaces line.now) }
{
    match line.len() {
        16..=31 => Some(marks_of_32(line)),
        32..=64 => Some(marks_of_64(line)),
        _ => None,
    }
}

/// Cuts a line at its spaces, which are marked. The first eight parts are added to `parts`, which is empty.
#[inline]
pub(crate) fn cut_at_marks<'a>(parts: &mut ArrayVec<&'a [u8], 8>, line: &'a [u8], marks: u64)
    requires parts { parts.old.items ≡ [] }
    requires marks { MarksSpaces line.now marks }
    ensures { map (λ part. part.now) parts.new.items ≡ take 8 (space_parts line.now) }
{
    let mut rest = line;
    let mut left = marks;
    while left != 0 {
        if parts.is_full() {
            return;
        }
        let at = first_mark(rest, left);
        push_part(parts, &rest[..at]);
        rest = &rest[at + 1..];
        left = left >> at >> 1;
    }
    add_part(parts, rest);
}

/// Adds a part where there is room for it.
#[inline]
fn push_part<'a>(parts: &mut ArrayVec<&'a [u8], 8>, part: &'a [u8])
    requires { length parts.old.items < 8 }
    ensures { map (λ part. part.now) parts.new.items
        ≡ take 8 (map (λ part. part.now) parts.old.items ++ part.now ∷ []) }
{
    parts.push(part);
}

/// Where the first mark stands.
#[inline]
fn first_mark(bytes: &[u8], marks: u64) -> usize
    requires some { marks ≢ 0 }
    requires marks { MarksSpaces bytes.now marks }
    ensures bound { result < 64 }
    ensures within { result < length bytes.now }
    ensures marked { bit_at marks result ≡ 1 }
    ensures before { (k : ℕ) → k < result → bit_at marks k ≡ 0 }
{
    marks.trailing_zeros() as usize
}

/// The marks of 16 to 32 bytes, by two vectors that may overlap.
#[inline]
fn marks_of_32(bytes: &[u8]) -> u64
    requires least { 16 ≤ length bytes.now }
    requires most { length bytes.now ≤ 32 }
    ensures { MarksSpaces bytes.now result }
{
    let after = bytes.len() - 16;
    marks_in_16(bytes) | marks_in_16(&bytes[after..]) << after
}

/// The marks of 32 to 64 bytes, by two vectors that may overlap.
#[inline]
fn marks_of_64(bytes: &[u8]) -> u64
    requires least { 32 ≤ length bytes.now }
    requires most { length bytes.now ≤ 64 }
    ensures { MarksSpaces bytes.now result }
{
    let after = bytes.len() - 32;
    marks_in_32(bytes) | marks_in_32(&bytes[after..]) << after
}

/// The marks of the first 16 bytes.
#[inline]
fn marks_in_16(bytes: &[u8]) -> u64
    requires { 16 ≤ length bytes.now }
    ensures marks { MarksSpaces (take 16 bytes.now) result }
    ensures small { result < 2 ^ 32 }
{
    u8x16::from_slice(bytes)
        .simd_eq(u8x16::splat(b' '))
        .to_bitmask()
}

/// The marks of the first 32 bytes.
#[inline]
fn marks_in_32(bytes: &[u8]) -> u64
    requires { 32 ≤ length bytes.now }
    ensures marks { MarksSpaces (take 32 bytes.now) result }
    ensures small { result < 2 ^ 32 }
{
    u8x32::from_slice(bytes)
        .simd_eq(u8x32::splat(b' '))
        .to_bitmask()
}
