ghost use Rattle.std.specs.Prelude.{◌≡◌};
ghost use Rattle.std.specs.List.{list_all};
ghost use Rattle.vms_base.specs.Common.{is_name as has_form, is_name_byte};

/// Whether a word is of the form of a declared name: 1 to 16 bytes of `a` to `z`, `0` to `9` and `_`, the first a
/// letter.
pub fn is_name(word: &[u8]) -> bool
    ensures { result ≡ has_form word.now }
{
    match word {
        [] => false,
        [first, rest @ ..] => {
            first.is_ascii_lowercase() && are_name_bytes(rest) && rest.len() <= 15
        }
    }
}

fn are_name_bytes(bytes: &[u8]) -> bool
    ensures { result ≡ list_all is_name_byte bytes.now }
{
    bytes
        .iter()
        .all(|byte| matches!(*byte, b'a'..=b'z' | b'0'..=b'9' | b'_'))
}
