ghost use Rattle.std.specs.Prelude.{◌≡◌, ℕ, ◌*◌, ◌<◌, ◌^◌, pos, false, [], length, IfOk, OnOk, slice_index_or};
ghost use Rattle.std.specs.Prelude.{count_by};
ghost use Rattle.vms_history.specs.Common.{is_present as tells_present, lives_in};
ghost use Rattle.vms_pcpu_core.specs.Common.{IsBase, IsLegal, counters_of, numbers_after, role};
ghost use Rattle.vms_pcpu_core.specs.States.{unlocked};
ghost use Rattle.vms_pcpu.specs.SharedWords.{shown, pair_word, word_count};
ghost use Rattle.vms_rows.specs.Rows.{rows_of};
ghost use Rattle.vms_seats.specs.Common.{IsFrom};

use crate::ledgers::SharedPcpu;
use crate::places::pair_width;
use std::alloc::Global;
use std::marker::Model;
use vms_base::{CpuState, Layout, Memory, Row, encode};
use vms_pcpu_core::{PcpuFacts, PcpuState};
use vms_rows::{Signed, fill_rows, push_row, push_signed_row, row_width};
use vms_seats::{Closing, History, Main, Words};

/// The main pass of the percpu counters, which begins and ends the others.
pub type PcpuMain = Main<SharedPcpu>;

/// The history of a phase on the percpu counters, which is legal and complete. It stores no event.
pub type PcpuHistory = History<SharedPcpu>;

/// The percpu counters while threads change them. Contracts see which words they are, and the facts that their history
/// begins with: the layout, the state of each CPU, and the numbers at the start.
#[derive(Drop)]
pub struct PcpuTable {
    pub(crate) facts: PcpuFacts,
    /// How many CPUs are online or dead.
    pub(crate) present: u64,
    pub(crate) words: Words<SharedPcpu>,
}

impl Model for PcpuTable {
    ghost use Rattle.vms_pcpu_core.specs.declared.steps.PcpuFacts.{PcpuFacts};
    ghost use Rattle.vms_seats.specs.Common.{Shared};
    ghost use Rattle.vms_pcpu.specs.SharedWords.{AreMadeFor};

    ghost Value = { Shared PcpuFacts };

    ghost view = { λ t. t.words };

    ghost invariant = { λ t. AreMadeFor t.facts t.present t.words };
}

impl PcpuTable {
    /// The percpu counters of a layout, whose CPUs are in these states, with these numbers under free locks. All memory
    /// of a phase is taken here.
    pub fn make(
        alloc: Global,
        layout: &Layout,
        base: &PcpuState,
        cpus: &[CpuState],
    ) -> Result<(PcpuTable, PcpuMain), Memory>
        requires { IsBase (record { layout = layout.now; cpus = cpus.now; base = base.now }) }
        ensures table { IfOk result (λ made. made.0.facts
            ≡ record { layout = layout.now; cpus = cpus.now; base = base.now }) }
        ensures main { IfOk result (λ made. IsFrom made.1 made.0 × (made.1.seen ≡ [])) }
    {
        let facts = opening_facts(alloc, layout, base, cpus)?;
        let present = count_present(facts.cpus.as_slice());
        let first = opening_words(alloc, &facts)?;
        let (words, main) = Words::make(alloc, &facts, first.as_slice())?;
        Ok((
            PcpuTable {
                facts,
                present,
                words,
            },
            main,
        ))
    }

    /// The layout.
    #[inline]
    pub fn layout(&self) -> &Layout
        ensures { result.now ≡ self.now.facts.layout }
    {
        &self.facts.layout
    }

    /// Closes the words, once every other pass has ended, and writes the numbers as they are then. The history is what
    /// the main pass has seen.
    pub fn close(self, main: PcpuMain, into: &mut PcpuState) -> PcpuHistory
        requires table { IsFrom main self }
        requires ended { (q : ℕ) → lives_in role main.seen q ≡ false }
        ensures history { result ≡ record { facts = self.facts; events = main.seen } }
        ensures state { into.new ≡ numbers_after self.facts main.seen }
    {
        let PcpuTable {
            facts,
            present: _,
            words,
        } = self;
        let PcpuFacts {
            layout,
            cpus: _,
            base,
        } = facts;
        let PcpuState {
            batch,
            mut count,
            mut local,
        } = base;
        let closing = words.close(main);
        fill_numbers(
            &closing,
            batch.len(),
            layout.cpus() as usize,
            &mut count,
            &mut local,
        );
        *into = PcpuState {
            batch,
            count,
            local,
        };
        closing.leave()
    }
}

/// What a phase on the percpu counters begins with.
fn opening_facts(
    alloc: Global,
    layout: &Layout,
    base: &PcpuState,
    cpus: &[CpuState],
) -> Result<PcpuFacts, Memory>
    ensures { IfOk result (λ facts. facts
        ≡ record { layout = layout.now; cpus = cpus.now; base = base.now }) }
{
    let cpus = Row::from_slice(alloc, cpus)?;
    let batch = Row::from_slice(alloc, base.batch.as_slice())?;
    let count = Row::from_slice(alloc, base.count.as_slice())?;
    let local = Row::from_slice(alloc, base.local.as_slice())?;
    Ok(PcpuFacts {
        layout: layout.copied(),
        cpus,
        base: PcpuState {
            batch,
            count,
            local,
        },
    })
}

/// How many CPUs are online or dead.
fn count_present(cpus: &[CpuState]) -> u64
    ensures { result ≡ count_by tells_present cpus.now }
{
    cpus.iter().filter(|state| is_present(**state)).count() as u64
}

#[inline]
pub(crate) fn is_present(state: CpuState) -> bool
    ensures { result ≡ tells_present state }
{
    match state {
        CpuState::Online | CpuState::Dead => true,
        CpuState::Absent => false,
    }
}

/// The words that show the numbers of a base under free locks.
fn opening_words(alloc: Global, facts: &PcpuFacts) -> Result<Vec<u64>, Memory>
    requires { IsBase facts.now }
    ensures { IfOk result (λ words. words.items ≡ shown facts.now (unlocked facts.now)) }
{
    let counters = facts.base.batch.len();
    let local = facts.base.local.as_slice();
    let mut words = Vec::new(alloc);
    push_pairs(&mut words, facts.base.count.as_slice())?;
    for cpu in 0..facts.layout.cpus() as usize {
        let start = cpu * counters;
        push_signed_row(&mut words, &local[start..start + counters])?;
    }
    Ok(words)
}

/// Appends a row for each counter, whose lock is free.
fn push_pairs(words: &mut Vec<u64>, counts: &[i64]) -> Result<(), Memory>
    requires { words.old.items ≡ [] }
    ensures { OnOk result (words.new.items ≡ rows_of 2 (length counts.now)
        (λ j k. pair_word (slice_index_or counts.now j (pos 0)) false k)) }
{
    for count in counts {
        push_row(words, &[encode(*count), 0])?;
    }
    Ok(())
}

/// Fills the shared parts and the local parts with the numbers in the words.
fn fill_numbers(
    closing: &Closing<SharedPcpu>,
    counters: usize,
    cpus: usize,
    count: &mut Row<i64>,
    local: &mut Row<i64>,
)
    requires legal { IsLegal closing.now.facts closing.now.events }
    requires same { (counters_of closing.now.facts.base ≡ counters) × (closing.now.facts.layout.cpus ≡ cpus) }
    requires small { word_count closing.now.facts < 2 ^ 64 }
    requires count { length count.old ≡ counters }
    requires local { length local.old ≡ cpus * counters }
    ensures count { count.new ≡ (numbers_after closing.now.facts closing.now.events).count }
    ensures local { local.new ≡ (numbers_after closing.now.facts closing.now.events).local }
{
    let pair = pair_width();
    let start = counters * pair;
    let width = row_width(counters);
    fill_rows::<SharedPcpu, i64, Signed>(closing, 0, pair, counters, count, 1);
    fill_rows::<SharedPcpu, i64, Signed>(closing, start, width, cpus, local, counters);
}
