ghost use Rattle.std.specs.Prelude.{IfOk};
ghost use Rattle.vms_world.specs.Common.{IsHeader};

use std::process::Abort;
use std::test::Fail;
use vms_base::Header;
use vms_header::parse_header;

/// Two CPUs, one zone of one node with 10,000 free pages, sixteen items a place, the node's item `slab` in bytes, and
/// the percpu counter `gauge`.
pub(crate) const ONE_ZONE: &str = "vmtrace 2
cpus 2
item node slab bytes
zone 0 Normal 262144 100 125 150
base 0 Normal nr_free_pages 10000
counter gauge
go
";

/// The header of a text.
pub(crate) fn header<R: AllocGlobal + Abort>(rt: &R, text: &str) -> Result<Header, Fail>
    ensures { IfOk result (λ header. IsHeader header) }
{
    assert!(rt; text.len() <= 1 << 26);
    let (header, _lines, _bytes) = parse_header(rt.alloc(), text.as_bytes())?;
    Ok(header)
}
