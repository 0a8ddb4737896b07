ghost use Rattle.std.specs.Prelude.{◌≡◌, ◌≤◌, ◌^◌, length, IfOk};
ghost use Rattle.vms_header.specs.Stages.{ReadsHeader};
ghost use Rattle.vms_header.specs.Steps.{at_line};
ghost use Rattle.vms_header.specs.Laws.{HeaderIsSettled, HeadersAreWritable, IsWritable};

use crate::{HeaderError, HeaderReader, HeaderStep, ReadError};
use std::alloc::Global;
use vms_base::Header;
use vms_text::split_line;

/// Reads the header at the front of a text of at most 64 MiB. Gives the header, the number of its lines, and the number
/// of its bytes up to the end of the `go` line.
pub fn parse_header(alloc: Global, text: &[u8]) -> Result<(Header, u32, usize), HeaderError>
    requires { length text.now ≤ 2 ^ 26 }
    ensures read { ReadsHeader text.now result }
    ensures valid { IfOk result (λ found. IsWritable found.0) }
{
    let mut reader = HeaderReader::make(alloc);
    let mut rest = text;
    let mut line = 1;
    while !rest.is_empty() {
        let (front, after) = split_line(rest);
        rest = after;
        match reader.read(front) {
            Ok(HeaderStep::Goes(next)) => reader = next,
            Ok(HeaderStep::Ends(header)) => return Ok((header, line, text.len() - rest.len())),
            Err(error) => return Err(at_line(line, error)),
        }
        line += 1;
    }
    Err(HeaderError::Bad {
        line,
        cause: reader.missing(),
    })
}

fn at_line(line: u32, error: ReadError) -> HeaderError
    ensures { result ≡ at_line line error }
{
    match error {
        ReadError::Refused(cause) => HeaderError::Bad { line, cause },
        ReadError::Memory => HeaderError::Memory,
    }
}

/// The law that a header rests on its own lines, or on those up to the one at fault.
pub fn header_is_settled()
    ensures { HeaderIsSettled }
{}

/// The law that every header that is read can be written.
pub fn headers_are_writable()
    ensures { HeadersAreWritable }
{}
