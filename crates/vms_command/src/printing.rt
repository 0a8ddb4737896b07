ghost use Rattle.std.specs.Prelude.{◌≡◌, ◌++◌, OnErr, OnOk};
ghost use Rattle.std.specs.Fmt.{decimal};
ghost use Rattle.vms_command.specs.Printing.{done_line, header_cause, header_line, line_cause, line_prefix};
ghost use Rattle.vms_command.specs.Printing.{refused_line};
ghost use Rattle.vms_text.specs.Common.{Begins};

use itoa::Buffer;
use vms_base::Memory;
use vms_header::HeaderCause;
use vms_line::LineCause;

/// Appends `line N: CAUSE`, the one line of a refused header.
pub fn write_header_line(out: &mut Vec<u8>, line: u32, cause: HeaderCause) -> Result<(), Memory>
    ensures ok { OnOk result (out.new.items ≡ out.old.items ++ header_line (record { line = line; cause = cause })) }
    ensures err { OnErr result (Begins out.old.items out.new.items) }
{
    write_prefix(out, line)?;
    out.extend_from_slice(name_of_header_cause(cause))?;
    out.push(b'\n')?;
    Ok(())
}

/// Appends the line for one that doesn't count: `line N: refused: CAUSE`.
pub fn write_refused_line(out: &mut Vec<u8>, line: u32, cause: LineCause) -> Result<(), Memory>
    ensures ok { OnOk result (out.new.items ≡ out.old.items ++ refused_line line cause) }
    ensures err { OnErr result (Begins out.old.items out.new.items) }
{
    write_prefix(out, line)?;
    out.extend_from_slice(b"refused: ")?;
    out.extend_from_slice(name_of_line_cause(cause))?;
    out.push(b'\n')?;
    Ok(())
}

/// Appends the line that ends a trace: `done accepted A refused R`.
pub fn write_done_line(out: &mut Vec<u8>, accepted: u32, refused: u32) -> Result<(), Memory>
    ensures ok { OnOk result (out.new.items ≡ out.old.items ++ done_line accepted refused) }
    ensures err { OnErr result (Begins out.old.items out.new.items) }
{
    out.extend_from_slice(b"done accepted ")?;
    write_number(out, accepted)?;
    out.extend_from_slice(b" refused ")?;
    write_number(out, refused)?;
    out.push(b'\n')?;
    Ok(())
}

/// Appends `line N: `.
pub fn write_prefix(out: &mut Vec<u8>, line: u32) -> Result<(), Memory>
    ensures ok { OnOk result (out.new.items ≡ out.old.items ++ line_prefix line) }
    ensures err { OnErr result (Begins out.old.items out.new.items) }
{
    out.extend_from_slice(b"line ")?;
    write_number(out, line)?;
    out.extend_from_slice(b": ")?;
    Ok(())
}

fn write_number(out: &mut Vec<u8>, number: u32) -> Result<(), Memory>
    ensures ok { OnOk result (out.new.items ≡ out.old.items ++ decimal number) }
    ensures err { OnErr result (Begins out.old.items out.new.items) }
{
    let mut buffer = Buffer::new();
    out.extend_from_slice(buffer.format(number).as_bytes())?;
    Ok(())
}

/// The name of a header's cause.
fn name_of_header_cause(cause: HeaderCause) -> &'static [u8]
    ensures { result.now ≡ header_cause cause }
{
    match cause {
        HeaderCause::BadMagic => b"BadMagic",
        HeaderCause::BadNumber => b"BadNumber",
        HeaderCause::BadCpus => b"BadCpus",
        HeaderCause::NoZone => b"NoZone",
        HeaderCause::DoubledZone => b"DoubledZone",
        HeaderCause::TooManyZones => b"TooManyZones",
        HeaderCause::BadMarks => b"BadMarks",
        HeaderCause::UnknownName => b"UnknownName",
        HeaderCause::DoubledCounter => b"DoubledCounter",
        HeaderCause::BadBatch => b"BadBatch",
        HeaderCause::MissingGo => b"MissingGo",
        HeaderCause::Malformed => b"Malformed",
        HeaderCause::TooManyCounters => b"TooManyCounters",
        HeaderCause::LineTooLong => b"LineTooLong",
        HeaderCause::DoubledItem => b"DoubledItem",
        HeaderCause::TooManyItems => b"TooManyItems",
    }
}

/// The name of a line's cause.
fn name_of_line_cause(cause: LineCause) -> &'static [u8]
    ensures { result.now ≡ line_cause cause }
{
    match cause {
        LineCause::Malformed => b"Malformed",
        LineCause::BadNumber => b"BadNumber",
        LineCause::UnknownLane => b"UnknownLane",
        LineCause::UnknownPlace => b"UnknownPlace",
        LineCause::UnknownItem => b"UnknownItem",
        LineCause::UnknownCounter => b"UnknownCounter",
        LineCause::LineTooLong => b"LineTooLong",
        LineCause::NotOnline => b"NotOnline",
        LineCause::Overflow => b"Overflow",
        LineCause::NotDead => b"NotDead",
        LineCause::NotFolded => b"NotFolded",
        LineCause::LastCpu => b"LastCpu",
        LineCause::NotPages => b"NotPages",
    }
}
