ghost use Rattle.vms_core.specs.declared.states.State.{State};
ghost use Rattle.vms_core.specs.Pages.{pages};
ghost use Rattle.vms_core.specs.Quiet.{quiet_pages};

use crate::{Facts, Step};
use vms_history::Table;

/// The table of page counters, for the laws that hold of every table.
#[derive(Debug, Drop)]
pub struct Pages;

impl Table for Pages {
    type Facts = Facts;

    type Step = Step;

    ghost State = { State };

    ghost machine = { pages };

    ghost quiet = { quiet_pages };
}
