ghost use Rattle.std.specs.Prelude.{◌≡◌};
ghost use Rattle.vms_tables.specs.Common.{AreTables};

use vms_base::Header;
use vms_tables::Tables;

/// What all handles share: the header, and the three tables of its machine.
#[derive(Drop)]
pub(crate) struct SharedCounters {
    pub header: Header,
    pub tables: Tables,
    ghost are: { AreTables header tables },
    ghost same_layout: { header.layout ≡ tables.pages.facts.layout },
    ghost same_sizes: { header.sizes ≡ tables.pages.facts.sizes },
}
