ghost use Rattle.std.specs.Prelude.{◌≡◌, map};
ghost use Rattle.std.specs.Int.{w8, cast_signed, cast_unsigned};
ghost use Rattle.vms_base.specs.Groups.{IsByte, AreBytes, word_of_bytes, bytes_of_word};

use crate::Diffs;

/// The word that has entry i in byte i, counted from the lowest, in two's complement.
#[inline]
pub fn pack(d: &Diffs) -> u64
    ensures value { result ≡ word_of_bytes d.now.values }
    ensures read { bytes_of_word result ≡ d.now.values }
{
    u64::from_le_bytes(bytes_of(d))
}

#[inline]
fn bytes_of(d: &Diffs) -> [u8; 8]
    ensures { result ≡ map (cast_unsigned w8) d.now.values }
{
    let mut bytes = [0; 8];
    for i in 0..8 {
        bytes[i] = byte_of(d.values[i]);
    }
    bytes
}

#[inline]
fn byte_of(value: i64) -> u8
    requires { IsByte value }
    ensures { result ≡ cast_unsigned w8 value }
{
    (value as i8).cast_unsigned()
}

/// The entries that a word has in its bytes.
#[inline]
pub fn unpack(w: u64) -> Diffs
    ensures value { result.values ≡ bytes_of_word w }
    ensures word { word_of_bytes result.values ≡ w }
{
    Diffs {
        values: values_of(w.to_le_bytes()),
    }
}

#[inline]
fn values_of(bytes: [u8; 8]) -> [i64; 8]
    ensures value { result ≡ map (cast_signed w8) bytes }
    ensures range { AreBytes result }
{
    let mut values = [0; 8];
    for i in 0..8 {
        values[i] = i64::from(bytes[i].cast_signed());
    }
    values
}

/// The law that `unpack` reads what `pack` wrote.
pub fn unpack_pack(d: &Diffs) -> Diffs
    ensures { result.values ≡ d.now.values }
{
    unpack(pack(d))
}
