ghost use Rattle.std.specs.Prelude.{◌≡◌, ◌++◌, length, OnErr, OnOk};
ghost use Rattle.vms_text.specs.Common.{Begins};
ghost use Rattle.vms_groups.specs.GroupTexts.{group_header_line, refused_group_line, value_line};

use itoa::Buffer;
use vms_base::Memory;
use vms_command::write_prefix;
use vms_group_lines::{GroupCause, cause_name};

/// Appends `line N: CAUSE`, the one line of a refused header.
pub(crate) fn write_header_line(
    out: &mut Vec<u8>,
    line: u32,
    cause: GroupCause,
) -> Result<(), Memory>
    ensures ok { OnOk result (out.new.items
        ≡ out.old.items ++ group_header_line (record { line = line; cause = cause })) }
    ensures err { OnErr result (Begins out.old.items out.new.items) }
{
    write_prefix(out, line)?;
    out.extend_from_slice(cause_name(cause))?;
    out.push(b'\n')?;
    Ok(())
}

/// Appends the line for one that doesn't count: `line N: refused: CAUSE`.
pub(crate) fn write_refused_line(
    out: &mut Vec<u8>,
    line: u32,
    cause: GroupCause,
) -> Result<(), Memory>
    ensures ok { OnOk result (out.new.items ≡ out.old.items ++ refused_group_line line cause) }
    ensures err { OnErr result (Begins out.old.items out.new.items) }
{
    write_prefix(out, line)?;
    out.extend_from_slice(b"refused: ")?;
    out.extend_from_slice(cause_name(cause))?;
    out.push(b'\n')?;
    Ok(())
}

/// Appends `line N: value V`.
pub(crate) fn write_value_line(out: &mut Vec<u8>, line: u32, value: i64) -> Result<(), Memory>
    ensures ok { OnOk result (out.new.items ≡ out.old.items ++ value_line line value) }
    ensures err { OnErr result (Begins out.old.items out.new.items) }
{
    let mut buffer = Buffer::new();
    write_prefix(out, line)?;
    out.extend_from_slice(b"value ")?;
    out.extend_from_slice(buffer.format(value).as_bytes())?;
    out.push(b'\n')?;
    Ok(())
}
