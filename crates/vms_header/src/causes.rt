use vms_base::Memory;

/// Why a header is refused. The first line at fault decides, and within a line the first cause that holds.
#[derive(Clone, Copy, Debug, PartialEq, Eq)]
pub enum HeaderCause {
    /// The first line that isn't blank isn't `vmtrace 1` or `vmtrace 2`, or there is no such line.
    BadMagic,
    /// A number is spelled wrongly or is out of its range.
    BadNumber,
    /// The version hasn't so many CPUs: 1 to 64, and 1 to 128 in version 2.
    BadCpus,
    /// A line that is due only after a zone line stands before the first.
    NoZone,
    /// A zone stands twice.
    DoubledZone,
    /// More than 16 zones.
    TooManyZones,
    /// The watermarks don't rise.
    BadMarks,
    /// A kind, place, item, class or name is unknown or not of its form.
    UnknownName,
    /// A counter has two bases, or a percpu counter's name stands twice.
    DoubledCounter,
    /// A batch isn't 1 to 65,536.
    BadBatch,
    /// The text ends before its `go` line.
    MissingGo,
    /// A byte that no trace has, a first word that isn't due, or a wrong number of words.
    Malformed,
    /// More than 16 percpu counters.
    TooManyCounters,
    /// More than 200 bytes.
    LineTooLong,
    /// An item has the name of another.
    DoubledItem,
    /// More than eight declared items of a class.
    TooManyItems,
}

/// Why no header was read.
#[derive(Clone, Copy, Debug, PartialEq, Eq, thiserror::Error)]
pub enum HeaderError {
    /// The first line at fault, counted from 1, and its cause.
    #[error("line {line} of the header is refused")]
    Bad { line: u32, cause: HeaderCause },
    #[error("out of memory")]
    Memory,
}

impl From<Memory> for HeaderError {
    ghost use Rattle.std.specs.Prelude.{◌≡◌};
    ghost use Rattle.vms_header.specs.declared.causes.HeaderError.TheVariants as errors;

    ghost from_gives = { λ _ error. error ≡ errors.Memory };

    fn from(_error: Memory) -> HeaderError {
        HeaderError::Memory
    }
}

/// Why a line of a header was not read.
#[derive(Clone, Copy, Debug, PartialEq, Eq, thiserror::Error)]
pub enum ReadError {
    /// The line is at fault.
    #[error("the line is refused")]
    Refused(HeaderCause),
    #[error("out of memory")]
    Memory,
}

impl From<HeaderCause> for ReadError {
    ghost use Rattle.std.specs.Prelude.{◌≡◌};
    ghost use Rattle.vms_header.specs.declared.causes.ReadError.TheVariants as errors;

    ghost from_gives = { λ cause error. error ≡ errors.Refused cause };

    fn from(cause: HeaderCause) -> ReadError {
        ReadError::Refused(cause)
    }
}

impl From<Memory> for ReadError {
    ghost use Rattle.std.specs.Prelude.{◌≡◌};
    ghost use Rattle.vms_header.specs.declared.causes.ReadError.TheVariants as errors;

    ghost from_gives = { λ _ error. error ≡ errors.Memory };

    fn from(_error: Memory) -> ReadError {
        ReadError::Memory
    }
}
