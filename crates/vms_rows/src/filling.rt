ghost use Rattle.std.specs.Prelude.{◌≡◌, ℕ, ◌+◌, ◌*◌, ◌≤◌, ◌<◌, ◌^◌, length, slice_index, slice_index_or};
ghost use Rattle.vms_history.specs.Common.{cell};
ghost use Rattle.vms_rows.specs.LastWords.{last_words};

use vms_base::{Row, decode};
use vms_seats::{Closing, Ledger};

/// How an entry of a row is read from a word.
pub trait Reads<T> {
    ghost read: { ℕ → T };

    fn of(word: u64) -> T
        ensures { result ≡ read word };
}

/// The number of the word itself.
pub struct Plain;

impl Reads<u64> for Plain {
    ghost read = { λ word. word };

    #[inline]
    fn of(word: u64) -> u64 {
        word
    }
}

/// A number in two's complement.
pub struct Signed;

impl Reads<i64> for Signed {
    ghost use Rattle.vms_history.specs.Common.{signed_of_word};

    ghost read = { signed_of_word };

    #[inline]
    fn of(word: u64) -> i64 {
        decode(word)
    }
}

/// Fills a row from the words that begin at a place.
pub fn fill_row<L: Ledger, T: Copy, R: Reads<T>>(
    closing: &Closing<L>,
    start: usize,
    row: &mut Row<T>,
)
    requires within { start + length row.old ≤ length (last_words L.machine L.shown closing.now) }
    requires fits { length (last_words L.machine L.shown closing.now) < 2 ^ 64 }
    ensures len { length row.new ≡ length row.old }
    ensures each { (n : ℕ) → n < length row.old → (default : T) → slice_index_or row.new n default
        ≡ R.read (slice_index (last_words L.machine L.shown closing.now) (start + n)) }
{
    let count = row.len();
    fill_part::<L, T, R>(closing, start, row, 0, count);
}

/// Fills a table that has `count` entries for each of `rows` CPUs. The words of a CPU's entries stand side by side, and
/// those of the next one `width` words further on.
pub fn fill_rows<L: Ledger, T: Copy, R: Reads<T>>(
    closing: &Closing<L>,
    start: usize,
    width: usize,
    rows: usize,
    table: &mut Row<T>,
    count: usize,
)
    requires within { (c : ℕ) → c < rows →
        start + cell width c count ≤ length (last_words L.machine L.shown closing.now) }
    requires room { length table.old ≡ rows * count }
    requires fits { (length (last_words L.machine L.shown closing.now) < 2 ^ 64) × (length table.old < 2 ^ 64) }
    ensures len { length table.new ≡ length table.old }
    ensures each { (c k : ℕ) → c < rows → k < count → (default : T) → slice_index_or table.new (cell count c k) default
        ≡ R.read (slice_index (last_words L.machine L.shown closing.now) (start + cell width c k)) }
{
    for cpu in 0..rows {
        fill_part::<L, T, R>(closing, start + cpu * width, table, cpu * count, count);
    }
}

/// Fills `count` entries of a row, from `at` on, from the words that begin at `start`.
fn fill_part<L: Ledger, T: Copy, R: Reads<T>>(
    closing: &Closing<L>,
    start: usize,
    row: &mut Row<T>,
    at: usize,
    count: usize,
)
    requires within { start + count ≤ length (last_words L.machine L.shown closing.now) }
    requires room { at + count ≤ length row.old }
    requires fits { (length (last_words L.machine L.shown closing.now) < 2 ^ 64) × (length row.old < 2 ^ 64) }
    ensures len { length row.new ≡ length row.old }
    ensures each { (n : ℕ) → n < count → (default : T) → slice_index_or row.new (at + n) default
        ≡ R.read (slice_index (last_words L.machine L.shown closing.now) (start + n)) }
    ensures before { (n : ℕ) → n < at → (default : T) → slice_index_or row.new n default
        ≡ slice_index_or row.old n default }
{
    for n in 0..count {
        row.set(at + n, R::of(closing.word(start + n)));
    }
}
