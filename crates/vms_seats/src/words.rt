ghost use Rattle.std.specs.Prelude.{◌≡◌, ℕ, ◌<◌, [], length, IfOk, Option};
ghost use Rattle.vms_seats.specs.Passes.{IsFrom};

use crate::Ledger;
use crate::main_pass::Main;
use crate::views::{OneHistory, View};
use atomic_table::Table;
use std::alloc::Global;
use std::marker::Model;
use vms_base::Memory;

/// The shared words of a table. Contracts see which ones they are, with how many there are, and the facts that their
/// history begins with.
#[derive(Drop)]
pub struct Words<L: Ledger> {
    pub(crate) table: Table<(), View<L::Facts, L::Step>, L::Facts, OneHistory<L>, Global>,
}

impl<L: Ledger> Model for Words<L> {
    ghost use Rattle.std.specs.Prelude.{◌≡◌, ◌<◌};
    ghost use Rattle.vms_seats.specs.Passes.{Shared};

    ghost Value = { Shared L.Facts };

    ghost view = { λ w. record { table = w.table.shared.table_id; facts = w.table.shared.key } };

    ghost invariant = { λ w. (0 < w.table.shared.table_id.words) × (w.table.shared.table_id.slots ≡ 0) };
}

impl<L: Ledger> Words<L> {
    /// Shared words, and the main pass, which has seen no event. All memory of a phase is taken here.
    pub fn make(
        alloc: Global,
        facts: &L::Facts,
        words: &[u64],
    ) -> Result<(Words<L>, Main<L>), Memory>
        requires base { L.machine.CanBegin facts.now }
        requires shown { words.now ≡ L.shown facts.now (L.machine.base facts.now) }
        requires some { 0 < length words.now }
        ensures words { IfOk result (λ made. (made.0.facts ≡ facts.now)
            × (made.0.table.words ≡ length words.now)) }
        ensures main { IfOk result (λ made. IsFrom made.1 made.0 × (made.1.seen ≡ [])) }
    {
        let (table, seat) = Table::of_words(alloc, words, facts)?;
        Ok((Words { table }, Main { seat }))
    }

    /// How many words there are.
    #[inline]
    pub fn count(&self) -> usize
        ensures { result ≡ self.now.table.words }
    {
        self.table.word_count()
    }
}
