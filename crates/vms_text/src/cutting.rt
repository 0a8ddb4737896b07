ghost use Rattle.std.specs.Prelude.{◌≡◌, ◌==◌, position};
ghost use Rattle.vms_text.specs.Lines.{FirstLine, LastLine, LinesAppend, SplitsLine};

use memchr::memchr;

/// The line that a text begins with, without its newline, and what stands after it.
#[inline]
pub fn split_line(text: &[u8]) -> (&[u8], &[u8])
    ensures { SplitsLine text.now result.0.now result.1.now }
{
    match first_newline(text) {
        Some(end) => (&text[..end], &text[end + 1..]),
        None => (text, &text[text.len()..]),
    }
}

#[inline]
fn first_newline(text: &[u8]) -> Option<usize>
    ensures { result ≡ position (λ byte. byte == 10) text.now }
{
    memchr(b'\n', text)
}

/// The law that a text's lines up to an end of line, and those after it, are its lines.
pub fn lines_append()
    ensures { LinesAppend }
{}

/// The laws of a text's first line: it ends at the first newline, or with the text.
pub fn lines_begin()
    ensures first { FirstLine }
    ensures last { LastLine }
{}
