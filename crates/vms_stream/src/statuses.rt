use vms_base::Memory;
use vms_io::{Failed, ReadError};

/// How a command ended. The program's exit status is the number of the variant.
#[derive(Clone, Copy, Debug, PartialEq, Eq)]
pub enum Status {
    /// The input was read to its end, and no line was refused.
    Done,
    /// The words name no command that is built.
    Words,
    /// The header was refused.
    Header,
    /// The input was read to its end, and some line was refused.
    Refused,
    /// A read failed.
    ReadFault,
    /// A write failed.
    WriteFault,
    /// Memory ran out.
    Memory,
    /// The input exceeds a limit, such as 64 MiB.
    TooLong,
    /// The written history isn't one of its trace.
    NotCertified = 9,
}

impl From<Memory> for Status {
    ghost use Rattle.std.specs.Prelude.{◌≡◌};
    ghost use Rattle.vms_stream.specs.declared.statuses.Status.TheVariants as statuses;

    ghost from_gives = { λ _ status. status ≡ statuses.Memory };

    fn from(_error: Memory) -> Status {
        Status::Memory
    }
}

impl From<Failed> for Status {
    ghost use Rattle.std.specs.Prelude.{◌≡◌};
    ghost use Rattle.vms_stream.specs.declared.statuses.Status.TheVariants as statuses;

    ghost from_gives = { λ _ status. status ≡ statuses.WriteFault };

    fn from(_error: Failed) -> Status {
        Status::WriteFault
    }
}

impl From<ReadError> for Status {
    ghost use Rattle.vms_stream.specs.Courses.{status_of_read};
    ghost use Rattle.std.specs.Prelude.{◌≡◌};

    ghost from_gives = { λ error status. status ≡ status_of_read error };

    fn from(error: ReadError) -> Status {
        match error {
            ReadError::Failed => Status::ReadFault,
            ReadError::Memory => Status::Memory,
        }
    }
}
