ghost use Rattle.std.specs.Prelude.{IfOk};
ghost use Rattle.vms_world.specs.Common.{IsHeader};

use std::alloc::Global;
use std::test::Fail;
use vms_base::Header;
use vms_counters::Counters;
use vms_header::parse_header;

/// The header that a text has.
pub(crate) fn read_header(alloc: Global, text: &str) -> Result<Header, Fail>
    ensures { IfOk result IsHeader }
{
    let text = text.as_bytes();
    if text.len() > 1 << 26 {
        return Err(Fail::new("no header is as long as this text"));
    }
    let (header, _lines, _bytes) = parse_header(alloc, text)?;
    Ok(header)
}

/// Whether the counters close, which they do where no handle is out.
pub(crate) fn closes(counters: Counters) -> bool {
    match counters.close() {
        Ok(closed) => {
            drop(closed);
            true
        }
        Err(open) => {
            drop(open);
            false
        }
    }
}
