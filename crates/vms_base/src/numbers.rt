ghost use Rattle.std.specs.Prelude.{◌≡◌, ◌++◌, ◌<◌, ◌≤◌, ◌^◌, ◌-◌, OnOk, OnErr};
ghost use Rattle.std.specs.Fmt.{signed_decimal};
ghost use Rattle.vms_base.specs.Numbers.{word_of, signed_of_word, bits_of};

use crate::Memory;
use itoa::Buffer;

/// The two's-complement word of `v`.
#[inline]
pub fn encode(v: i64) -> u64
    ensures { result ≡ word_of v }
{
    v.cast_unsigned()
}

/// The signed number whose two's-complement word is `w`.
#[inline]
pub fn decode(w: u64) -> i64
    ensures value { result ≡ signed_of_word w }
    ensures read { word_of result ≡ w }
{
    w.cast_signed()
}

/// The law that `decode` reads what `encode` wrote.
pub fn decode_encode(v: i64) -> i64
    ensures { result ≡ v }
{
    decode(encode(v))
}

/// `fls64` of the kernel: the position of the highest set bit, counted from 1, and 0 where there is none.
#[inline]
pub fn fls(x: u64) -> u32
    ensures value { result ≡ bits_of x }
    ensures above { x < 2 ^ result }
    ensures least { 0 < result → 2 ^ (result - 1) ≤ x }
    ensures most { result ≤ 64 }
{
    64 - x.leading_zeros()
}

/// Appends the decimal text of `v`.
pub fn push_number(out: &mut Vec<u8>, v: i64) -> Result<(), Memory>
    ensures ok { OnOk result (out.new.items ≡ out.old.items ++ signed_decimal v) }
    ensures err { OnErr result (out.new.items ≡ out.old.items) }
{
    let mut buffer = Buffer::new();
    out.extend_from_slice(buffer.format(v).as_bytes())?;
    Ok(())
}
