ghost use Rattle.std.specs.Prelude.{◌≡◌, ◌++◌, OnErr, OnOk};
ghost use Rattle.std.specs.Fmt.{decimal};
ghost use Rattle.vms_text.specs.Common.{Begins};
ghost use Rattle.vms_certifying.specs.Printing.{cause_name, certified_line, fault_line};

use itoa::Buffer;
use vms_base::Memory;
use vms_command::write_prefix;
use vms_phase_checks::EventCause;

/// Appends `line N: CAUSE`, the one line of a history that isn't certified.
pub(crate) fn write_fault_line(
    out: &mut Vec<u8>,
    line: u32,
    cause: EventCause,
) -> Result<(), Memory>
    ensures ok { OnOk result (out.new.items ≡ out.old.items ++ fault_line line cause) }
    ensures err { OnErr result (Begins out.old.items out.new.items) }
{
    write_prefix(out, line)?;
    out.extend_from_slice(name_of_cause(cause))?;
    out.push(b'\n')?;
    Ok(())
}

/// Appends `certified phases P events E`.
pub(crate) fn write_certified_line(
    out: &mut Vec<u8>,
    phases: u32,
    events: u32,
) -> Result<(), Memory>
    ensures ok { OnOk result (out.new.items ≡ out.old.items ++ certified_line phases events) }
    ensures err { OnErr result (Begins out.old.items out.new.items) }
{
    out.extend_from_slice(b"certified phases ")?;
    write_number(out, phases)?;
    out.extend_from_slice(b" events ")?;
    write_number(out, events)?;
    out.push(b'\n')?;
    Ok(())
}

fn write_number(out: &mut Vec<u8>, number: u32) -> Result<(), Memory>
    ensures ok { OnOk result (out.new.items ≡ out.old.items ++ decimal number) }
    ensures err { OnErr result (Begins out.old.items out.new.items) }
{
    let mut buffer = Buffer::new();
    out.extend_from_slice(buffer.format(number).as_bytes())?;
    Ok(())
}

/// The name of a cause.
fn name_of_cause(cause: EventCause) -> &'static [u8]
    ensures { result.now ≡ cause_name cause }
{
    match cause {
        EventCause::BadEvent => b"BadEvent",
        EventCause::Illegal => b"Illegal",
        EventCause::NotInScript => b"NotInScript",
        EventCause::Incomplete => b"Incomplete",
    }
}
