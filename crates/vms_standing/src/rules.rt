use atomic_table::{Play, TableRule};
use std::marker::PhantomData;

/// What may answer a job.
pub trait Answers<J> {
    // The job may be made.
    ghost asks: { J → Type 0 };

    // This answers the job.
    ghost answers: { J → Self → Type 0 };
}

/// What makes jobs, on any thread. Every closure over jobs is one, if what it returns answers them.
pub trait Work<J, D: Answers<J>> {
    // It may make each job that may be made.
    ghost may_make: { Self → Type 0 };

    fn make(&self, job: J) -> D
        requires may { may_make self.now }
        requires asks { D.asks job }
        ensures { D.answers job result };
}

impl<J, D: Answers<J>, F: Fn(J) -> D> Work<J, D> for F {
    ghost use Rattle.vms_standing.specs.Works.{Makes};

    ghost may_make = { Makes D.asks D.answers F.Fn };

    fn make(&self, job: J) -> D {
        self(job)
    }
}

/// The rule: an answer that lies in the slot is one of the job.
pub struct Replied<D> {
    of: PhantomData<D>,
}

impl<J, D: Answers<J>> TableRule<Option<D>, J, J> for Replied<D> {
    ghost use Rattle.vms_standing.specs.Replying.{Keeps};

    ghost holds = { λ job. Keeps (D.answers job) };

    ghost first = { λ job. job };
}

// Where nothing was put yet, the slot is taken.
pub(crate) struct Opens;

impl<D, J> Play<Option<D>, J> for Opens {
    ghost use Rattle.std.specs.Prelude.{◌≡◌};
    ghost use Rattle.vms_standing.specs.Replying.{HasSlot};

    ghost then = { λ st m found n. found ≡ 0 → HasSlot n };
}

// The answer is laid into the slot.
pub(crate) struct Gives;

impl<D, J> Play<Option<D>, J> for Gives {
    ghost then = { λ st m found n. Unit {0} };
}

// Where an answer lies in the slot, it is taken.
pub(crate) struct Finds<D> {
    of: PhantomData<D>,
}

impl<J, D: Answers<J>> Play<Option<D>, J> for Finds<D> {
    ghost use Rattle.std.specs.Prelude.{◌≡◌};
    ghost use Rattle.vms_standing.specs.Replying.{HasAnswer};

    ghost then = { λ st m found n. found ≡ 2 → HasAnswer (D.answers m.0) n };
}
