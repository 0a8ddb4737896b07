ghost use Rattle.std.specs.Prelude.{◌≡◌, ◌++◌, decimal, map, OnOk, OnErr};
ghost use Rattle.std.specs.Fmt.{signed_decimal};
ghost use Rattle.vms_text.specs.Spelling.{sentence};
ghost use Rattle.vms_text.specs.Words.{joined};
ghost use Rattle.vms_text.specs.Writing.{Begins, spaced, text_of};

use itoa::Buffer;
use vms_base::Memory;

/// A word of a line.
#[derive(Clone, Copy)]
pub enum Word<'a> {
    Text(&'a [u8]),
    /// `c` and the number of a CPU.
    Cpu(u32),
    Unsigned(u64),
    Signed(i64),
}

/// Appends the line of these words: one blank between them, and the byte that ends it.
pub fn write_words(out: &mut Vec<u8>, words: &[Word<'_>]) -> Result<(), Memory>
    ensures ok { OnOk result (out.new.items ≡ out.old.items ++ sentence (map text_of words.now)) }
    ensures err { OnErr result (Begins out.old.items out.new.items) }
{
    write_joined(out, words)?;
    out.push(b'\n')?;
    Ok(())
}

/// Appends words, one blank between them.
#[inline]
fn write_joined(out: &mut Vec<u8>, words: &[Word<'_>]) -> Result<(), Memory>
    ensures ok { OnOk result (out.new.items ≡ out.old.items ++ joined (map text_of words.now)) }
    ensures err { OnErr result (Begins out.old.items out.new.items) }
{
    match words {
        [] => Ok(()),
        [first, rest @ ..] => {
            write_word(out, *first)?;
            write_more(out, rest)
        }
    }
}

/// Appends words, a blank before each.
#[inline]
fn write_more(out: &mut Vec<u8>, words: &[Word<'_>]) -> Result<(), Memory>
    ensures ok { OnOk result (out.new.items ≡ out.old.items ++ spaced (map text_of words.now)) }
    ensures err { OnErr result (Begins out.old.items out.new.items) }
{
    for word in words {
        out.push(b' ')?;
        write_word(out, *word)?;
    }
    Ok(())
}

#[inline]
fn write_word(out: &mut Vec<u8>, word: Word<'_>) -> Result<(), Memory>
    ensures ok { OnOk result (out.new.items ≡ out.old.items ++ text_of word.entry) }
    ensures err { OnErr result (Begins out.old.items out.new.items) }
{
    match word {
        Word::Text(text) => out.extend_from_slice(text)?,
        Word::Cpu(number) => {
            out.push(b'c')?;
            write_unsigned(out, u64::from(number))?;
        }
        Word::Unsigned(number) => write_unsigned(out, number)?,
        Word::Signed(number) => write_signed(out, number)?,
    }
    Ok(())
}

/// Appends a number. One of a single digit, as most are, is one byte and needs no buffer.
#[inline]
fn write_unsigned(out: &mut Vec<u8>, number: u64) -> Result<(), Memory>
    ensures ok { OnOk result (out.new.items ≡ out.old.items ++ decimal number) }
    ensures err { OnErr result (out.new.items ≡ out.old.items) }
{
    if number < 10 {
        out.push(b'0' + number as u8)?;
    } else {
        let mut buffer = Buffer::new();
        out.extend_from_slice(buffer.format(number).as_bytes())?;
    }
    Ok(())
}

/// Appends a number, with its sign where it is negative.
#[inline]
fn write_signed(out: &mut Vec<u8>, number: i64) -> Result<(), Memory>
    ensures ok { OnOk result (out.new.items ≡ out.old.items ++ signed_decimal number) }
    ensures err { OnErr result (out.new.items ≡ out.old.items) }
{
    if number >= 0 {
        return write_unsigned(out, number as u64);
    }
    let mut buffer = Buffer::new();
    out.extend_from_slice(buffer.format(number).as_bytes())?;
    Ok(())
}
