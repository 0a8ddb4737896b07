ghost use Rattle.std.specs.Prelude.{◌≡◌};
ghost use Rattle.vozhkell_c.specs.Statuses as told;

use vms_counters::{BeginError, CallError};
use vms_header::HeaderCause;

// The statuses of vozhkell.h. -4 is answered by the header alone.

pub(crate) const MADE: i32 = 0;

pub(crate) const NULL: i32 = -1;

pub(crate) const NO_MEMORY: i32 = -2;

pub(crate) const IN_USE: i32 = -3;

pub(crate) const HANDLES_OUT: i32 = -5;

pub(crate) const NO_MARK: i32 = -17;

pub(crate) const NO_PLACE: i32 = -18;

pub(crate) const NO_NAME: i32 = -19;

pub(crate) const HEADER_TOO_LONG: i32 = -20;

/// Why no handle was begun.
pub(crate) fn begin_status(error: BeginError) -> i32
    ensures { result ≡ told.begin_status error }
{
    match error {
        BeginError::NotOnline(_) => -6,
        BeginError::HasHandle(_) => -7,
        BeginError::HasControl => -8,
        BeginError::Memory(_) => NO_MEMORY,
    }
}

/// Why a call of a handle made nothing.
pub(crate) fn call_status(error: CallError) -> i32
    ensures { result ≡ told.call_status error }
{
    match error {
        CallError::NoCounter(_) => -9,
        CallError::NoItem(_) => -10,
        CallError::NoCpu(_) => -11,
        CallError::NoZone(_) => -12,
        CallError::NoNode(_) => -13,
        CallError::NoZoneIndex(_) => -14,
        CallError::NoOrder(_) => -15,
        CallError::TooOften => -37,
        CallError::TooMuch(_) => -16,
        CallError::NoEvent(_) => -38,
        CallError::NoPcpu(_) => -39,
        CallError::TooFar => -40,
        CallError::Held => -41,
    }
}

/// Why a header is refused.
pub(crate) fn header_status(cause: HeaderCause) -> i32
    ensures { result ≡ told.header_status cause }
{
    match cause {
        HeaderCause::BadMagic => -21,
        HeaderCause::BadNumber => -22,
        HeaderCause::BadCpus => -23,
        HeaderCause::NoZone => -24,
        HeaderCause::DoubledZone => -25,
        HeaderCause::TooManyZones => -26,
        HeaderCause::BadMarks => -27,
        HeaderCause::UnknownName => -28,
        HeaderCause::DoubledCounter => -29,
        HeaderCause::BadBatch => -30,
        HeaderCause::MissingGo => -31,
        HeaderCause::Malformed => -32,
        HeaderCause::TooManyCounters => -33,
        HeaderCause::LineTooLong => -34,
        HeaderCause::DoubledItem => -35,
        HeaderCause::TooManyItems => -36,
    }
}
