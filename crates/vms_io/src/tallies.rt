use crate::Failed;
use std::marker::Model;

/// The numbers of the calls that are to fail, from 1, and how many calls were made and failed.
#[derive(Drop)]
pub(crate) struct Calls {
    fails: Vec<u32>,
    made: u64,
    failed: u64,
}

impl Model for Calls {
    ghost use Rattle.std.specs.Prelude.{vec_items};
    ghost use Rattle.vms_io.specs.Faults.{FaultTally};

    ghost Value = { FaultTally };

    ghost view = { λ calls. record { fails = vec_items calls.fails; made = calls.made; failed = calls.failed } };
}

ghost use Rattle.std.specs.Prelude.{◌≡◌, ◌↔◌, Contains, IsTrue};
ghost use Rattle.vms_io.specs.Faults.{after_call, one_call_more};

impl Calls {
    pub(crate) fn make(fails: Vec<u32>) -> Calls
        ensures { result ≡ record { fails = fails.items; made = 0; failed = 0 } }
    {
        Calls {
            fails,
            made: 0,
            failed: 0,
        }
    }

    /// Counts one more call, and says whether it is to fail.
    pub(crate) fn next(&mut self) -> bool
        ensures fails { IsTrue result ↔ Contains self.new.fails self.new.made }
        ensures made { self.new ≡ after_call self.old }
    {
        self.made = self.made.saturating_add(1);
        let number = self.made;
        self.fails.iter().any(|fails| u64::from(*fails) == number)
    }

    /// Counts one more fault.
    pub(crate) fn fault(&mut self) -> Failed
        ensures { self.new ≡ record self.old { failed = one_call_more self.old.failed } }
    {
        self.failed = self.failed.saturating_add(1);
        Failed
    }
}
