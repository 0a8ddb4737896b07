ghost use Rattle.std.specs.Prelude.{◌≡◌, ℕ, ◌+◌, ◌/◌, ◌%◌, ◌*◌, ◌^◌, ◌≤◌, ◌<◌, pos, length, slice_index};
ghost use Rattle.std.specs.Prelude.{slice_index_or};
ghost use Rattle.vms_base.specs.Groups.{bytes_of_word};
ghost use Rattle.vms_calls.specs.Common.{cell, state_after};
ghost use Rattle.vms_words.specs.Shown.{shown};

use crate::SharedPages;
use crate::packed::{cpu_of, mark_of, threshold_of};
use vms_base::{CpuState, Diffs, Row, unpack};
use vms_rows::Reads;
use vms_seats::Closing;

/// A threshold without the number of its sets.
pub(crate) struct Thresholds;

impl Reads<u32> for Thresholds {
    ghost use Rattle.std.specs.Prelude.{◌%◌, ◌^◌};

    ghost read = { λ word. word % 2 ^ 32 };

    #[inline]
    fn of(word: u64) -> u32 {
        threshold_of(word).t
    }
}

/// A mark without the number of its sets.
pub(crate) struct Marks;

impl Reads<u64> for Marks {
    ghost use Rattle.std.specs.Prelude.{◌%◌, ◌^◌};

    ghost read = { λ word. word % 2 ^ 43 };

    #[inline]
    fn of(word: u64) -> u64 {
        mark_of(word).mark
    }
}

/// Whether a CPU is online, dead or absent.
pub(crate) struct Cpus;

impl Reads<CpuState> for Cpus {
    ghost use Rattle.vms_words.specs.Told.{cpu_told};

    ghost read = { cpu_told };

    #[inline]
    fn of(word: u64) -> CpuState {
        cpu_of(word)
    }
}

/// Puts one value into each entry of a row.
pub(crate) fn clear<T: Copy>(row: &mut Row<T>, value: T)
    ensures len { length row.new ≡ length row.old }
    ensures each { (n : ℕ) → n < length row.old → (default : T) → slice_index_or row.new n default ≡ value }
{
    for n in 0..row.len() {
        row.set(n, value);
    }
}

/// Fills the differentials from the words of so many groups for each CPU, which begin at `start` for CPU 0, and
/// `width` words further on for each next one. Each word is unpacked once.
pub(crate) fn fill_groups(
    closing: &Closing<SharedPages>,
    start: usize,
    width: usize,
    cpus: usize,
    groups: usize,
    row: &mut Row<i64>,
)
    requires whole { length row.old ≡ 8 * (cpus * groups) }
    requires within { (c : ℕ) → c < cpus → start + cell width c groups
        ≤ length (shown closing.now.facts (state_after closing.now.facts closing.now.events)) }
    requires fits { (length (shown closing.now.facts (state_after closing.now.facts closing.now.events)) < 2 ^ 32)
        × (length row.old < 2 ^ 32) }
    ensures len { length row.new ≡ length row.old }
    ensures each { (n i : ℕ) → n < cpus * groups → i < 8 → slice_index_or row.new (8 * n + i) (pos 0)
        ≡ slice_index_or (bytes_of_word (slice_index
        (shown closing.now.facts (state_after closing.now.facts closing.now.events))
        (start + cell width (n / groups) (n % groups)))) i (pos 0) }
{
    for cpu in 0..cpus {
        for group in 0..groups {
            let diffs = unpack(closing.word(start + cpu * width + group));
            put_list(row, 8 * (cpu * groups + group), &diffs);
        }
    }
}

/// Puts the eight differentials of a group where they begin in a row.
fn put_list(row: &mut Row<i64>, at: usize, diffs: &Diffs)
    requires { at + 8 ≤ length row.old }
    ensures len { length row.new ≡ length row.old }
    ensures each { (i : ℕ) → i < 8 → slice_index_or row.new (at + i) (pos 0)
        ≡ slice_index_or diffs.now.values i (pos 0) }
    ensures before { (i : ℕ) → i < at → slice_index_or row.new i (pos 0) ≡ slice_index_or row.old i (pos 0) }
{
    let entries = row.len();
    prove!(at < entries);
    for i in 0..8 {
        row.set(at + i, diffs.values[i]);
    }
}
