ghost use Rattle.std.specs.Prelude.{◌≡◌, ◌++◌, ◌∷◌, [], IfSome, OnErr, OnOk};
ghost use Rattle.vms_base.specs.Common.{IsHeader};
ghost use Rattle.vms_line.specs.Common.{IsLineOf, spelled_line};
ghost use Rattle.vms_text.specs.Common.{Begins};
ghost use Rattle.vms_check.specs.Checking.{accepted_line};

use vms_base::{Header, Memory};
use vms_line::{Line, write_line};

/// Appends a line that counts in its one spelling, whose bytes may be at hand, and nothing for a blank one.
#[inline(always)]
pub fn write_accepted(
    out: &mut Vec<u8>,
    header: &Header,
    line: &Line,
    spelled: Option<&[u8]>,
) -> Result<(), Memory>
    requires header { IsHeader header.now }
    requires line { IsLineOf header.now line.now }
    requires spelled { IfSome spelled (λ text. spelled_line header.now line.now ≡ text.now ++ 10 ∷ []) }
    ensures ok { OnOk result (out.new.items ≡ out.old.items ++ accepted_line header.now line.now) }
    ensures err { OnErr result (Begins out.old.items out.new.items) }
{
    match (line, spelled) {
        (Line::Blank, _) => Ok(()),
        (_, Some(text)) => copy_line(out, text),
        (_, None) => spell_line(out, header, *line),
    }
}

/// Appends a line in its one spelling. It is taken by value, so that a line whose bytes are at hand needs no place in
/// memory.
#[cold]
fn spell_line(out: &mut Vec<u8>, header: &Header, line: Line) -> Result<(), Memory>
    requires header { IsHeader header.now }
    requires line { IsLineOf header.now line }
    ensures ok { OnOk result (out.new.items ≡ out.old.items ++ spelled_line header.now line) }
    ensures err { OnErr result (Begins out.old.items out.new.items) }
{
    write_line(out, header, &line)
}

/// Appends these bytes, and the one that ends a line.
#[inline(always)]
fn copy_line(out: &mut Vec<u8>, text: &[u8]) -> Result<(), Memory>
    ensures ok { OnOk result (out.new.items ≡ out.old.items ++ (text.now ++ 10 ∷ [])) }
    ensures err { OnErr result (Begins out.old.items out.new.items) }
{
    out.extend_from_slice(text)?;
    out.push(b'\n')?;
    Ok(())
}
