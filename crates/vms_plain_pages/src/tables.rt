ghost use Rattle.vms_calls.specs.Common.{State, pages, Tells};
ghost use Rattle.vms_plain_pages.specs.StateSteps.{pages_by_state, pages_are_by_state};

use vms_core::{Facts, Step};
use vms_history::StateTable;

/// The page counters as a table whose steps tell and do what the state decides.
#[derive(Debug, Drop)]
pub struct PlainPages;

impl StateTable for PlainPages {
    type Facts = Facts;

    type Step = Step;

    ghost State = { State };

    ghost machine = { pages };

    ghost Tells = { Tells };

    ghost by_state = { pages_by_state };

    ghost is_by_state = { pages_are_by_state };
}
