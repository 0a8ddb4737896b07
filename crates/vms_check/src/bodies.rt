use crate::accepted_lines::write_accepted;
use std::alloc::Global;
use vms_base::{Header, Memory};
use vms_command::{Body, status_at_end, write_done_line, write_refused_line};
use vms_header::write_header;
use vms_line::LineCause;
use vms_script::JudgedLine;
use vms_stream::Status;

/// The body of a check.
#[derive(Drop)]
pub(crate) struct CheckBody;

impl Body for CheckBody {
    ghost use Rattle.std.specs.Prelude.{None};
    ghost use Rattle.vms_check.specs.Checking.{checking};
    ghost use Rattle.vms_command.specs.Common.{quietly};

    type Engine = ();

    ghost Kept = { Unit {0} };

    ghost Outcome = { ⊥ };

    ghost command = { checking };

    ghost made = { λ engine. None };

    ghost Stands = { λ body. quietly (λ header above kept. Unit {0}) };

    ghost Shows = { λ header above kept given. Unit {0} };

    fn begin(_alloc: Global, header: &Header, out: &mut Vec<u8>) -> Result<CheckBody, Memory> {
        write_header(out, header)?;
        Ok(CheckBody)
    }

    fn take_line(
        &mut self,
        _engine: &mut (),
        header: &Header,
        number: u32,
        judged: &JudgedLine<'_>,
        out: &mut Vec<u8>,
    ) -> Result<(), Memory> {
        match &judged.said {
            Ok(line) => write_accepted(out, header, line, judged.spelled),
            Err(cause) => write_refused(out, number, *cause),
        }
    }

    fn end(
        &mut self,
        _engine: &mut (),
        _header: &Header,
        accepted: u32,
        refused: u32,
        out: &mut Vec<u8>,
    ) -> Result<Status, Memory> {
        out.extend_from_slice(b"# ")?;
        write_done_line(out, accepted, refused)?;
        Ok(status_at_end(refused))
    }
}

ghost use Rattle.std.specs.Prelude.{◌≡◌, ◌++◌, OnErr, OnOk, codes};
ghost use Rattle.vms_command.specs.Common.{refused_line};
ghost use Rattle.vms_text.specs.Common.{Begins};

/// Appends the comment that stands in the place of a line that doesn't count.
fn write_refused(out: &mut Vec<u8>, number: u32, cause: LineCause) -> Result<(), Memory>
    ensures ok { OnOk result (out.new.items ≡ out.old.items ++ (codes "# " ++ refused_line number cause)) }
    ensures err { OnErr result (Begins out.old.items out.new.items) }
{
    out.extend_from_slice(b"# ")?;
    write_refused_line(out, number, cause)
}
