use vms_base::Header;
use vms_lane::CountedLines;
use vms_tables::Tables;
use vms_world::World;

/// What the lanes of a phase are begun and ended by: the header, the tables with the world that they were made from,
/// and the lines.
#[derive(Drop)]
pub struct Plan<'a> {
    pub header: &'a Header,
    pub tables: &'a Tables,
    pub world: &'a World,
    pub lines: &'a CountedLines<'a>,
}
