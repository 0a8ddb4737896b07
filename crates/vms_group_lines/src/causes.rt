ghost use Rattle.std.specs.Prelude.{◌≡◌};
ghost use Rattle.vms_group_lines.specs.Causes.{group_cause_name};

use vms_base::Memory;

/// Why a line of a trace of groups is refused. In the header the first line at fault decides, and within a line the
/// first cause that holds; those from `BadNumber` to `UnknownGroup` are judged word by word from the left.
#[derive(Clone, Copy, Debug, PartialEq, Eq)]
pub enum GroupCause {
    /// More than 200 bytes.
    LineTooLong,
    /// The first line that isn't blank isn't `vmgroups 1`, or there is no such line.
    BadMagic,
    /// A byte that no trace has, a first or second word that isn't due, or a wrong number of words.
    Malformed,
    /// A number is spelled wrongly or doesn't fit 64 bits.
    BadNumber,
    /// The number of the lane isn't below the number of CPUs.
    UnknownLane,
    /// A declared name isn't of its form.
    BadName,
    /// No group of this name was declared above.
    UnknownGroup,
    /// The number of CPUs isn't 1 to 64.
    BadCpus,
    /// A name is declared again.
    DoubledGroup,
    /// More than 64 groups.
    TooManyGroups,
    /// The text ends before its `go` line.
    MissingGo,
    /// The CPU would change the group by more than 2^48 in absolute sum over the trace.
    Overflow,
}

/// The name of a cause, as it is printed.
pub fn cause_name(cause: GroupCause) -> &'static [u8]
    ensures { result.now ≡ group_cause_name cause }
{
    match cause {
        GroupCause::LineTooLong => b"LineTooLong",
        GroupCause::BadMagic => b"BadMagic",
        GroupCause::Malformed => b"Malformed",
        GroupCause::BadNumber => b"BadNumber",
        GroupCause::UnknownLane => b"UnknownLane",
        GroupCause::BadName => b"BadName",
        GroupCause::UnknownGroup => b"UnknownGroup",
        GroupCause::BadCpus => b"BadCpus",
        GroupCause::DoubledGroup => b"DoubledGroup",
        GroupCause::TooManyGroups => b"TooManyGroups",
        GroupCause::MissingGo => b"MissingGo",
        GroupCause::Overflow => b"Overflow",
    }
}

/// Why a line of a header was not read.
#[derive(Clone, Copy, Debug, PartialEq, Eq, thiserror::Error)]
pub enum GroupReadError {
    /// The line is at fault.
    #[error("the line is refused")]
    Refused(GroupCause),
    #[error("out of memory")]
    Memory,
}

impl From<GroupCause> for GroupReadError {
    ghost use Rattle.std.specs.Prelude.{◌≡◌};
    ghost use Rattle.vms_group_lines.specs.declared.causes.GroupReadError.TheVariants as errors;

    ghost from_gives = { λ cause error. error ≡ errors.Refused cause };

    fn from(cause: GroupCause) -> GroupReadError {
        GroupReadError::Refused(cause)
    }
}

impl From<Memory> for GroupReadError {
    ghost use Rattle.std.specs.Prelude.{◌≡◌};
    ghost use Rattle.vms_group_lines.specs.declared.causes.GroupReadError.TheVariants as errors;

    ghost from_gives = { λ _ error. error ≡ errors.Memory };

    fn from(_error: Memory) -> GroupReadError {
        GroupReadError::Memory
    }
}
