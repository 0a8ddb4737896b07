ghost use Rattle.std.specs.Prelude.{◌≡◌, ℕ, List, Option};

use crate::{Failed, Source};
use std::io::{ErrorKind, Read};

/// A reader of the standard library, such as standard input, with a count of its calls and one of its errors. Each read
/// goes straight to the reader.
#[derive(Drop)]
pub struct StdSource<R> {
    reader: R,
    calls: u64,
    errors: u64,
}

impl<R: Read> StdSource<R> {
    pub fn make(reader: R) -> StdSource<R>
        ensures { result ≡ record { reader = reader; calls = 0; errors = 0 } }
    {
        StdSource {
            reader,
            calls: 0,
            errors: 0,
        }
    }
}

impl<R: Read> Source for StdSource<R> {
    ghost remaining = { λ src. R.remaining src.reader };

    ghost faults = { λ src. src.errors };

    ghost calls = { λ src. src.calls };

    fn read(&mut self, buf: &mut [u8]) -> Result<usize, Failed> {
        self.calls = self.calls.saturating_add(1);
        for _ in 0..u64::MAX {
            match self.reader.read(buf) {
                Ok(count) => return Ok(count),
                Err(error) if error.kind() == ErrorKind::Interrupted => {}
                Err(_) => break,
            }
        }
        self.errors = self.errors.saturating_add(1);
        Err(Failed)
    }
}
