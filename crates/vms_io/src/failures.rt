use thiserror::Error;
use vms_base::Memory;

/// A read or a write that a source or a sink refused. Its count of faults rose.
#[derive(Clone, Copy, Debug, PartialEq, Eq, Error)]
#[error("the device failed")]
pub struct Failed;

/// Why a buffer got no more bytes.
#[derive(Clone, Copy, Debug, PartialEq, Eq, Error)]
pub enum ReadError {
    /// The buffer was full, and there was no memory for a larger one.
    #[error("out of memory")]
    Memory,
    #[error("the source failed")]
    Failed,
}

impl From<Memory> for ReadError {
    ghost use Rattle.std.specs.Prelude.{◌≡◌};
    ghost use Rattle.vms_io.specs.declared.failures.ReadError.TheVariants.{Memory as OutOfMemory};

    ghost from_gives = { λ _ error. error ≡ OutOfMemory };

    fn from(_error: Memory) -> ReadError {
        ReadError::Memory
    }
}

impl From<Failed> for ReadError {
    ghost use Rattle.std.specs.Prelude.{◌≡◌};
    ghost use Rattle.vms_io.specs.declared.failures.ReadError.TheVariants.{Failed as SourceFailed};

    ghost from_gives = { λ _ error. error ≡ SourceFailed };

    fn from(_error: Failed) -> ReadError {
        ReadError::Failed
    }
}
