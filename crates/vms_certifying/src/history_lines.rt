ghost use Rattle.std.specs.Prelude.{◌≡◌};
ghost use Rattle.vms_certifying.specs.HistoryLines.{is_history_line};

use vms_text::next_word;

/// The most bytes of a line.
const MOST_LINE: usize = 200;

/// Whether a line of a trace ends it, and a history follows: its words are `history` and `1`, and it isn't too long.
pub(crate) fn is_history_line(line: &[u8]) -> bool
    ensures { result ≡ is_history_line line.now }
{
    if line.len() > MOST_LINE {
        return false;
    }
    let Some((begin, end)) = next_word(line, 0) else {
        return false;
    };
    if &line[begin..end] != b"history".as_slice() {
        return false;
    }
    let Some((begin, after)) = next_word(line, end) else {
        return false;
    };
    if &line[begin..after] != b"1".as_slice() {
        return false;
    }
    next_word(line, after).is_none()
}
