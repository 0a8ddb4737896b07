ghost use Rattle.std.specs.Prelude.{◌≡◌, ◌<◌, ◌≤◌, None, take, length, IfOk};
ghost use Rattle.std.specs.Io.KnownBytes.{Appends, WriteAppends};
ghost use Rattle.vms_io.specs.Faults.{CountsFaults, one_call_more};

use crate::{Failed, Sink};
use std::io::{ErrorKind, Write};

/// A writer of the standard library, such as standard output, with a count of its calls and one of its errors. It is
/// flushed after each write. So a write may fail although its bytes reached the writer, and the sink tells no bytes.
#[derive(Drop)]
pub struct StdSink<W> {
    writer: W,
    calls: u64,
    errors: u64,
}

impl<W: Write> StdSink<W> {
    pub fn make(writer: W) -> StdSink<W>
        ensures { result ≡ record { writer = writer; calls = 0; errors = 0 } }
    {
        StdSink {
            writer,
            calls: 0,
            errors: 0,
        }
    }
}

impl<W: Write> Sink for StdSink<W> {
    ghost written = { λ _. None };

    ghost faults = { λ out. out.errors };

    ghost calls = { λ out. out.calls };

    fn write(&mut self, bytes: &[u8]) -> Result<usize, Failed>
        requires { 0 < length bytes.now }
        ensures some { IfOk result (λ n. (1 ≤ n) × (n ≤ length bytes.now)) }
        ensures faults { CountsFaults self.old.errors self.new.errors result }
        ensures calls { self.new.calls ≡ one_call_more self.old.calls }
        ensures written { IfOk result (λ n.
            Appends (W.contents self.old.writer) (W.contents self.new.writer) (take n bytes.now)) }
    {
        self.calls = self.calls.saturating_add(1);
        let result = write_once(&mut self.writer, bytes);
        if result.is_err() {
            self.errors = self.errors.saturating_add(1);
        }
        result
    }
}

/// Writes once and flushes. A write that was interrupted is tried again.
fn write_once<W: Write>(writer: &mut W, bytes: &[u8]) -> Result<usize, Failed>
    requires { 0 < length bytes.now }
    ensures some { IfOk result (λ n. (1 ≤ n) × (n ≤ length bytes.now)) }
    ensures written { IfOk result (λ n. Appends (W.contents writer.old) (W.contents writer.new) (take n bytes.now)) }
{
    for _ in 0..u64::MAX {
        match writer.write(bytes) {
            Ok(0) => break,
            Ok(count) => {
                writer.flush().map_err(|_| Failed)?;
                return Ok(count);
            }
            Err(error) if error.kind() == ErrorKind::Interrupted => {}
            Err(_) => break,
        }
    }
    Err(Failed)
}
