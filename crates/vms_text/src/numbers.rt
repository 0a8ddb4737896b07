ghost use Rattle.std.specs.Prelude.{◌≡◌};
ghost use Rattle.std.specs.List.{list_all};
ghost use Rattle.vms_text.specs.Numbers.{SignedReadsBack, UnsignedReadsBack, digits_of, is_digit, is_numeral};
ghost use Rattle.vms_text.specs.Numbers.{number_within, signed_of, unsigned_of};

/// The number that a word spells, if it has 64 bits.
pub fn read_unsigned(word: &[u8]) -> Option<u64>
    ensures { result ≡ unsigned_of word.now }
{
    read_within(word, 0, u64::MAX)
}

/// The signed number that a word spells, if it has 64 bits.
pub fn read_signed(word: &[u8]) -> Option<i64>
    ensures { result ≡ signed_of word.now }
{
    match word {
        [b'-', digits @ ..] => match read_within(digits, 0, 1 << 63) {
            None | Some(0) => None,
            Some(size) => Some(size.wrapping_neg().cast_signed()),
        },
        digits => read_within(digits, 0, i64::MAX as u64).map(u64::cast_signed),
    }
}

/// The number that a word spells, if it is at least `least` and at most `most`.
pub fn read_within(word: &[u8], least: u64, most: u64) -> Option<u64>
    ensures { result ≡ number_within least most word.now }
{
    match word {
        [] | [b'0', _, ..] => None,
        digits => read_digits(digits, most).filter(|number| least <= *number),
    }
}

/// Whether a word spells a number, of any size.
pub fn is_number(word: &[u8]) -> bool
    ensures { result ≡ is_numeral word.now }
{
    match word {
        [] | [b'0', _, ..] => false,
        digits => are_digits(digits),
    }
}

/// The law that a number has one spelling: what is written of it is read back, and nothing else gives it.
pub fn numbers_read_back()
    ensures unsigned { UnsignedReadsBack }
    ensures signed { SignedReadsBack }
{}

fn are_digits(digits: &[u8]) -> bool
    ensures { result ≡ list_all is_digit digits.now }
{
    digits.iter().all(u8::is_ascii_digit)
}

fn read_digits(digits: &[u8], most: u64) -> Option<u64>
    ensures { result ≡ digits_of most digits.now }
{
    let mut value = 0u64;
    for byte in digits {
        if !byte.is_ascii_digit() {
            return None;
        }
        value = value.checked_mul(10)?.checked_add(u64::from(byte - b'0'))?;
        if most < value {
            return None;
        }
    }
    Some(value)
}
