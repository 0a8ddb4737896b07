ghost use Rattle.std.specs.Prelude.{◌≡◌, ◌∷◌, ◌++◌, codes, decimal, map, OnErr, OnOk};
ghost use Rattle.std.specs.Fmt.{signed_decimal};
ghost use Rattle.vms_world.specs.Common.{is_present as tells_present, at_least_zero, text_of};
ghost use Rattle.vms_report.specs.Items.{indented};
ghost use Rattle.vms_text.specs.Writing.{Begins};

use vms_base::{CpuState, Memory, push_number};
use vms_text::{Word, write_words};

/// Appends the line of these words under a heading.
#[inline]
pub(crate) fn write_indented(out: &mut Vec<u8>, words: &[Word<'_>]) -> Result<(), Memory>
    ensures ok { OnOk result (out.new.items ≡ out.old.items ++ indented (map text_of words.now)) }
    ensures err { OnErr result (Begins out.old.items out.new.items) }
{
    out.extend_from_slice(b"  ")?;
    write_words(out, words)
}

/// Appends a blank and a number.
#[inline]
pub(crate) fn push_next_number(out: &mut Vec<u8>, number: i64) -> Result<(), Memory>
    ensures ok { OnOk result (out.new.items ≡ out.old.items ++ 32 ∷ signed_decimal number) }
    ensures err { OnErr result (Begins out.old.items out.new.items) }
{
    out.push(b' ')?;
    push_number(out, number)
}

/// The word of a number of pages, which is 0 where the number is negative.
#[inline]
pub(crate) fn clamped(pages: i64) -> Word<'static>
    ensures { text_of result ≡ decimal (at_least_zero pages) }
{
    Word::Unsigned(pages.max(0) as u64)
}

/// Whether a CPU is online or dead.
#[inline]
pub(crate) fn is_present(state: CpuState) -> bool
    ensures { result ≡ tells_present state }
{
    match state {
        CpuState::Online | CpuState::Dead => true,
        CpuState::Absent => false,
    }
}
