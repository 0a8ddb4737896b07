ghost use Rattle.std.specs.Prelude.{◌≡◌};
ghost use Rattle.std.specs.Process.{exit_status};
ghost use Rattle.vms_tool.specs.Exits.{code_of};

use crate::Status;
use std::process::ExitCode;

/// The exit status of a run, by how its command ended.
pub(crate) fn exit_code(status: Status) -> ExitCode
    ensures { exit_status result ≡ code_of status }
{
    ExitCode::from(status as u8)
}
