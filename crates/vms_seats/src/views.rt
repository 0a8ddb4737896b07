use crate::Ledger;
use crate::ledgers::{Owner, Plan};
use atomic_table::{Join, Play, Split, TableRule};
use std::collections::LinkedList;
use std::marker::PhantomData;
use vms_history::Event;

// A pass for which a seat acts, and the history that it has seen.
pub(crate) struct Held<K> {
    pub number: u32,
    pub seen: LinkedList<Event<K>>,
}

// What a seat knows. No value of it is made. A seat acts for one pass; that of the main pass acts for a second one too
// just after it began and just before it ends, and a spent seat for none.
pub(crate) struct View<F, K> {
    pub facts: F,
    pub held: LinkedList<Held<K>>,
    // What the main pass had seen when it closed the words.
    pub past: LinkedList<Event<K>>,
}

// The rule: the words show the state of one legal history.
pub(crate) struct OneHistory<L> {
    of: PhantomData<L>,
}

impl<L: Ledger> TableRule<(), View<L::Facts, L::Step>, L::Facts> for OneHistory<L> {
    ghost use Rattle.vms_seats.specs.Rule.{Keeps};
    ghost use Rattle.vms_seats.specs.Views.{opening_view};

    ghost holds = { λ facts s. Keeps L.machine L.shown facts s.words s.views };

    ghost first = { opening_view };
}

// A step of a pass that works.
pub(crate) struct Working<L, P> {
    of: PhantomData<(L, P)>,
}

impl<L: Ledger, P: Plan<L::Step>> Play<(), View<L::Facts, L::Step>> for Working<L, P> {
    ghost use Rattle.std.specs.Prelude.{◌≡◌};
    ghost use Rattle.vms_seats.specs.Plays.{Advances};

    ghost then = { λ s v found w. (w.1 ≡ v.1) × Advances L.machine P.step v.0 found w.0 };
}

// The step by which a pass begins, and the split of the seat after it.
pub(crate) struct Beginning<L, O> {
    of: PhantomData<(L, O)>,
}

impl<L: Ledger, O: Owner> Play<(), View<L::Facts, L::Step>> for Beginning<L, O> {
    ghost use Rattle.std.specs.Prelude.{◌≡◌};
    ghost use Rattle.vms_seats.specs.Plays.{Divides};

    ghost then = { λ s v found w. (w.1 ≡ v.1) × Divides L.machine L.begins O.cpu v.0 w.0 };
}

impl<L: Ledger, O: Owner> Split<View<L::Facts, L::Step>> for Beginning<L, O> {
    ghost use Rattle.vms_seats.specs.Views.{first_alone, second_alone};

    ghost left = { first_alone };

    ghost right = { second_alone };
}

// The join of two seats, and the step by which the joined pass ends.
pub(crate) struct Ending<L> {
    of: PhantomData<L>,
}

impl<L: Ledger> Join<View<L::Facts, L::Step>> for Ending<L> {
    ghost use Rattle.vms_seats.specs.Views.{both_held, spent_view};

    ghost both = { both_held };

    ghost spent = { spent_view L.blank };
}

impl<L: Ledger> Play<(), View<L::Facts, L::Step>> for Ending<L> {
    ghost use Rattle.std.specs.Prelude.{◌≡◌};
    ghost use Rattle.vms_seats.specs.Plays.{Unites};

    ghost then = { λ s v found w. (w.1 ≡ v.1) × Unites L.machine L.ends v.0 w.0 };
}

// The split of a seat that remembers what the main pass had seen.
pub(crate) struct Witnessing;

impl<F, K> Split<View<F, K>> for Witnessing {
    ghost use Rattle.vms_seats.specs.Views.{witness_of};

    ghost left = { λ v. v };

    ghost right = { witness_of };
}
