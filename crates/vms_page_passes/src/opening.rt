ghost use Rattle.std.specs.Prelude.{ℕ, [], IfOk};
ghost use Rattle.vms_core.specs.Common.{IsBase};
ghost use Rattle.vms_page_passes.specs.Keeps.{KeepsPassNotes};

use crate::PagePasses;
use crate::amounts::Amounts;
use crate::notes::Loaded;
use std::alloc::Global;
use vms_base::Memory;
use vms_cells::{Grid, Stamped};
use vms_core::Facts;

impl PagePasses {
    /// What is kept of a history without events.
    pub fn open(alloc: Global, facts: &Facts) -> Result<PagePasses, Memory>
        requires { IsBase facts.now }
        ensures { IfOk result (λ r. (held : ℕ → ℕ) → KeepsPassNotes facts.now [] held r) }
    {
        let cpus = facts.layout.cpus() as usize;
        let groups = facts.layout.groups() as usize;
        let places = facts.layout.places() as usize;
        let unfound = Stamped {
            writer: 0,
            value: [0; 8],
        };
        let unloaded = Stamped {
            writer: 0,
            value: Loaded::make(0, 0),
        };
        let found = Grid::filled(alloc, cpus, groups, unfound)?;
        let loaded = Grid::filled(alloc, cpus, places, unloaded)?;
        let carried = Amounts::none(alloc, &facts.layout)?;
        Ok(PagePasses {
            found,
            loaded,
            carried,
        })
    }
}
