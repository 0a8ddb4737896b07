ghost use Rattle.std.specs.Prelude.{◌≡◌, ◌≤◌, ◌↔◌, [], drop, length, not, position, IfSome, IsNone};
ghost use Rattle.std.specs.List.{position_or_len};
ghost use Rattle.vms_text.specs.Words.{IsNextWord, is_word_byte, words_of};

/// Where the first word of the bytes from `from` on begins and ends in a line.
#[inline]
pub fn next_word(line: &[u8], from: usize) -> Option<(usize, usize)>
    requires { from ≤ length line.now }
    ensures word { IfSome result (λ word. IsNextWord line.now from word.0 word.1) }
    ensures none { IsNone result ↔ (words_of (drop from line.now) ≡ []) }
{
    let begin = from + word_begin(&line[from..])?;
    let end = begin + word_length(&line[begin..]);
    Some((begin, end))
}

/// The bytes before the first byte of a word.
#[inline]
fn word_begin(bytes: &[u8]) -> Option<usize>
    ensures { result ≡ position is_word_byte bytes.now }
{
    bytes.iter().position(u8::is_ascii_graphic)
}

/// How many bytes the word has that the bytes begin with, 0 where they begin with none.
#[inline]
pub fn word_length(bytes: &[u8]) -> usize
    ensures { result ≡ position_or_len (λ byte. not (is_word_byte byte)) bytes.now }
{
    match first_other(bytes) {
        Some(end) => end,
        None => bytes.len(),
    }
}

#[inline]
fn first_other(bytes: &[u8]) -> Option<usize>
    ensures { result ≡ position (λ byte. not (is_word_byte byte)) bytes.now }
{
    bytes.iter().position(|byte| !byte.is_ascii_graphic())
}
