ghost use Rattle.std.specs.Prelude.{◌≡◌, ◌+◌, ◌≤◌, ◌++◌, ◌∷◌, length, map};
ghost use Rattle.arrayvec.specs.ArrayVec.{array_vec_len};
ghost use Rattle.vms_text.specs.Common.{sentence, spaced, text_of};

use arrayvec::ArrayVec;
use itoa::Buffer;
use vms_text::Word;

/// The bytes of a line, or of the lines of a header.
pub(crate) type LineText = ArrayVec<u8, 208>;

/// Appends the line of these words: one blank between them, and the byte that ends it.
pub(crate) fn put_line(text: &mut LineText, first: Word<'_>, more: &[Word<'_>])
    requires { array_vec_len text.old + length (sentence (text_of first ∷ map text_of more.now)) ≤ 208 }
    ensures { text.new.items ≡ text.old.items ++ sentence (text_of first.entry ∷ map text_of more.now) }
{
    put_word(text, first);
    put_more(text, more);
    text.push(b'\n');
}

/// Appends words, a blank before each.
fn put_more(text: &mut LineText, words: &[Word<'_>])
    requires { array_vec_len text.old + length (spaced (map text_of words.now)) ≤ 208 }
    ensures { text.new.items ≡ text.old.items ++ spaced (map text_of words.now) }
{
    for word in words {
        text.push(b' ');
        put_word(text, *word);
    }
}

fn put_word(text: &mut LineText, word: Word<'_>)
    requires { array_vec_len text.old + length (text_of word) ≤ 208 }
    ensures { text.new.items ≡ text.old.items ++ text_of word.entry }
{
    let mut buffer = Buffer::new();
    match word {
        Word::Text(bytes) => put_bytes(text, bytes),
        Word::Cpu(number) => {
            text.push(b'c');
            put_bytes(text, buffer.format(number).as_bytes());
        }
        Word::Unsigned(number) => put_bytes(text, buffer.format(number).as_bytes()),
        Word::Signed(number) => put_bytes(text, buffer.format(number).as_bytes()),
    }
}

/// Appends bytes.
pub(crate) fn put_bytes(text: &mut LineText, bytes: &[u8])
    requires { array_vec_len text.old + length bytes.now ≤ 208 }
    ensures { text.new.items ≡ text.old.items ++ bytes.now }
{
    text.try_extend_from_slice(bytes).unwrap();
}
