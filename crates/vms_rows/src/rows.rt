ghost use Rattle.std.specs.Prelude.{◌≡◌, ◌≢◌, ℕ, ◌+◌, ◌<◌, ◌^◌};
ghost use Rattle.vms_rows.specs.Rows as words;
ghost use Rattle.vms_rows.specs.Rows.{line_of, row_place};

/// How many words that stay 0 stand after the words of a row.
pub(crate) const GAP: usize = 7;

/// How many words a row takes that has `count` words and the gap.
#[inline]
pub fn row_width(count: usize) -> usize
    requires { count < 2 ^ 63 }
    ensures { result ≡ words.row_width count }
{
    count + GAP
}

/// Words of two rows stand in two lines of 64 bytes, in whichever word of a line the first row begins.
pub fn rows_share_no_line()
    ensures { (count start c d k m : ℕ) → k < count → m < count → c ≢ d →
        line_of (start + row_place count c k) ≢ line_of (start + row_place count d m) }
{}
