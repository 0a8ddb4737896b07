ghost use Rattle.std.specs.Prelude.{◌≡◌, option_map};
ghost use Rattle.vms_text.specs.Common.{signed_of, unsigned_of};
ghost use Rattle.vms_written_lines.specs.Arguments.{counter_of, cpu_of, cpu_state_of, eight, group_of, if_any, item_of};
ghost use Rattle.vms_written_lines.specs.Arguments.{mode_of, number_below, place_of};
ghost use Rattle.vms_written_lines.specs.Words.{first};

use crate::words::Words;
use vms_base::{CounterId, CpuId, CpuState, GroupId, ItemId, Layout, Mode, PlaceId};
use vms_text::{read_signed, read_unsigned};

/// An unsigned number of 64 bits.
#[inline]
pub(crate) fn number(words: &mut Words<'_>) -> Option<u64>
    ensures words { option_map (λ n. (n, words.new.words)) result ≡ first unsigned_of words.old.words }
    ensures clean { words.new.clean ≡ words.old.clean }
{
    unsigned_of(words.next()?)
}

/// A signed number of 64 bits.
#[inline]
pub(crate) fn amount(words: &mut Words<'_>) -> Option<i64>
    ensures words { option_map (λ z. (z, words.new.words)) result ≡ first signed_of words.old.words }
    ensures clean { words.new.clean ≡ words.old.clean }
{
    signed_of(words.next()?)
}

/// Eight signed numbers.
pub(crate) fn eight(words: &mut Words<'_>) -> Option<[i64; 8]>
    ensures words { option_map (λ w. (w, words.new.words)) result ≡ eight words.old.words }
    ensures clean { words.new.clean ≡ words.old.clean }
{
    let mut list = [0; 8];
    for i in 0..8 {
        list[i] = amount(words)?;
    }
    Some(list)
}

/// A CPU of the machine.
pub(crate) fn cpu(words: &mut Words<'_>, layout: &Layout) -> Option<CpuId>
    ensures words { option_map (λ c. (c, words.new.words)) result ≡ first (cpu_of layout.now) words.old.words }
    ensures clean { words.new.clean ≡ words.old.clean }
{
    cpu_of(layout, words.next()?)
}

/// A zone or a node.
pub(crate) fn place(words: &mut Words<'_>, layout: &Layout) -> Option<PlaceId>
    ensures words { option_map (λ g. (g, words.new.words)) result ≡ first (place_of layout.now) words.old.words }
    ensures clean { words.new.clean ≡ words.old.clean }
{
    let number = number_below(layout.places(), words.next()?)?;
    Some(PlaceId { number })
}

/// A group of eight counters.
pub(crate) fn group(words: &mut Words<'_>, layout: &Layout) -> Option<GroupId>
    ensures words { option_map (λ j. (j, words.new.words)) result ≡ first (group_of layout.now) words.old.words }
    ensures clean { words.new.clean ≡ words.old.clean }
{
    let number = number_below(layout.groups(), words.next()?)?;
    Some(GroupId { number })
}

/// A counter.
pub(crate) fn counter(words: &mut Words<'_>, layout: &Layout) -> Option<CounterId>
    ensures words { option_map (λ k. (k, words.new.words)) result ≡ first (counter_of layout.now) words.old.words }
    ensures clean { words.new.clean ≡ words.old.clean }
{
    let number = number_below(layout.counters(), words.next()?)?;
    Some(CounterId { number })
}

/// A system-wide value.
pub(crate) fn item(words: &mut Words<'_>, layout: &Layout) -> Option<ItemId>
    ensures words { option_map (λ s. (s, words.new.words)) result ≡ first (item_of layout.now) words.old.words }
    ensures clean { words.new.clean ≡ words.old.clean }
{
    let number = number_below(layout.items(), words.next()?)?;
    Some(ItemId { number })
}

/// `0`, `1` or `-1`.
pub(crate) fn mode(words: &mut Words<'_>) -> Option<Mode>
    ensures words { option_map (λ how. (how, words.new.words)) result ≡ first mode_of words.old.words }
    ensures clean { words.new.clean ≡ words.old.clean }
{
    match words.next()? {
        b"0" => Some(Mode::Mod),
        b"1" => Some(Mode::Inc),
        b"-1" => Some(Mode::Dec),
        _ => None,
    }
}

/// `0`, `1` or `2`.
pub(crate) fn cpu_state(words: &mut Words<'_>) -> Option<CpuState>
    ensures words { option_map (λ x. (x, words.new.words)) result ≡ first cpu_state_of words.old.words }
    ensures clean { words.new.clean ≡ words.old.clean }
{
    match words.next()? {
        b"0" => Some(CpuState::Online),
        b"1" => Some(CpuState::Dead),
        b"2" => Some(CpuState::Absent),
        _ => None,
    }
}

/// An unsigned number of 64 bits, or `-`.
pub(crate) fn number_if_any(words: &mut Words<'_>) -> Option<Option<u64>>
    ensures words { option_map (λ n. (n, words.new.words)) result ≡ first (if_any unsigned_of) words.old.words }
    ensures clean { words.new.clean ≡ words.old.clean }
{
    match words.next()? {
        b"-" => Some(None),
        word => Some(Some(unsigned_of(word)?)),
    }
}

/// A CPU of the machine, or `-`.
pub(crate) fn cpu_if_any(words: &mut Words<'_>, layout: &Layout) -> Option<Option<CpuId>>
    ensures words { option_map (λ c. (c, words.new.words)) result ≡ first (if_any (cpu_of layout.now)) words.old.words }
    ensures clean { words.new.clean ≡ words.old.clean }
{
    match words.next()? {
        b"-" => Some(None),
        word => Some(Some(cpu_of(layout, word)?)),
    }
}

/// The CPU that a word names.
#[inline]
fn cpu_of(layout: &Layout, word: &[u8]) -> Option<CpuId>
    ensures { result ≡ cpu_of layout.now word.now }
{
    let number = number_below(layout.cpus(), word)?;
    Some(CpuId { number })
}

/// The number of one of `count` things.
#[inline]
fn number_below(count: u32, word: &[u8]) -> Option<u32>
    ensures { result ≡ number_below count word.now }
{
    let number = unsigned_of(word)?;
    if number < u64::from(count) {
        Some(number as u32)
    } else {
        None
    }
}

/// The unsigned number of 64 bits that a word spells.
#[inline]
pub(crate) fn unsigned_of(word: &[u8]) -> Option<u64>
    ensures { result ≡ unsigned_of word.now }
{
    match word {
        [digit @ b'0'..=b'9'] => Some(u64::from(*digit - b'0')),
        _ => read_unsigned(word),
    }
}

/// The signed number of 64 bits that a word spells.
#[inline]
fn signed_of(word: &[u8]) -> Option<i64>
    ensures { result ≡ signed_of word.now }
{
    match word {
        [digit @ b'0'..=b'9'] => Some(i64::from(*digit - b'0')),
        _ => read_signed(word),
    }
}
