ghost use Rattle.std.specs.Prelude.{◌≡◌};
ghost use Rattle.vms_command.specs.Commands.{status_at_end};

use vms_stream::Status;

/// The ending of a trace that was read to its end: lines that were refused make it `Refused`.
pub fn status_at_end(refused: u32) -> Status
    ensures { result ≡ status_at_end refused }
{
    if refused > 0 {
        Status::Refused
    } else {
        Status::Done
    }
}
