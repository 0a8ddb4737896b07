use crate::amounts::Amounts;
use crate::notes::Loaded;
use vms_cells::{Grid, Stamped};

/// What the pass in each slot did so far.
#[derive(Debug, Drop)]
pub struct PagePasses {
    /// What it last found of a group of its own CPU, by slot and group, with the number of the pass.
    pub(crate) found: Grid<Stamped<[i64; 8]>>,
    /// What it last loaded of a place, by slot and place, with the number of the pass.
    pub(crate) loaded: Grid<Stamped<Loaded>>,
    /// What it carries.
    pub(crate) carried: Amounts,
}
