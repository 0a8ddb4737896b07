ghost use Rattle.vms_calls.specs.Common.{State, Split, Join, pages, quiet_pages};
ghost use Rattle.vms_words.specs.Shown.{shown, no_facts};
ghost use Rattle.vms_words.specs.Told.{told, begins_it, ends_it};

use vms_core::{Facts, Step};
use vms_seats::Ledger;

/// The words of the page counters that threads share.
#[derive(Debug, Drop)]
pub struct SharedPages;

impl Ledger for SharedPages {
    type Facts = Facts;

    type Step = Step;

    ghost State = { State };

    ghost machine = { pages };

    ghost quiet = { quiet_pages };

    ghost shown = { shown };

    ghost told = { told };

    ghost begins = { Split };

    ghost begins_it = { begins_it };

    ghost ends = { Join };

    ghost ends_it = { ends_it };

    ghost blank = { no_facts };
}
