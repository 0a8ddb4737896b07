ghost use Rattle.std.specs.Prelude.{◌≡◌, ℕ, Some, None, false, [], IfOk};
ghost use Rattle.vms_calls.specs.Common.{MayOwnCpu, IsBase, settled, HasShape, Split, Join, CarriesNothing, pages};
ghost use Rattle.vms_calls.specs.Common.{state_after, role, facts_of, own, IsFree, lives_in, IsLayout, group_count};
ghost use Rattle.vms_calls.specs.Common.{place_count};
ghost use Rattle.vms_core.specs.Pages.{IsLegal};
ghost use Rattle.vms_seats.specs.Common.{HasBegun, HasEnded, IsFrom};
ghost use Rattle.vms_words.specs.PagePasses.{HoldsSpending};
ghost use Rattle.vms_words.specs.Rows.{AreThere};
ghost use Rattle.vms_words.specs.Spots.{blocks_of};

use crate::SharedPages;
use crate::endings::{Cpus, Marks, Thresholds, clear, fill_groups};
use crate::kept::Settings;
use crate::opening::opening_words;
use crate::passes::{ControlPass, CpuPass, MainPass};
use crate::spots::Blocks;
use std::alloc::Global;
use std::marker::Model;
use vms_base::{CpuId, CpuState, Header, Layout, Memory, Row, Volume};
use vms_core::{Facts, State};
use vms_rows::{Signed, fill_row, fill_rows};
use vms_seats::{Closing, History, Words};

/// The history of a phase on the page counters, which is legal and complete. It stores no event.
pub type PhaseHistory = History<SharedPages>;

/// The page counters while threads change them. Contracts see which words they are, and the facts that their history
/// begins with: the layout, the sizes and the state at the start.
#[derive(Drop)]
pub struct PageTable {
    pub(crate) layout: Layout,
    pub(crate) blocks: Blocks,
    pub(crate) words: Words<SharedPages>,
}

impl Model for PageTable {
    ghost use Rattle.vms_calls.specs.Common.{Facts};
    ghost use Rattle.vms_seats.specs.Common.{Shared};

    ghost Value = { Shared Facts };

    ghost use Rattle.vms_words.specs.PageTables.{AreMadeFor};

    ghost view = { λ t. t.words };

    ghost invariant = { λ t. AreMadeFor t.layout t.blocks t.words };
}

impl PageTable {
    /// The page counters of a header's layout and sizes, which begin in this state. All memory of the phase is taken
    /// here.
    pub fn make(
        alloc: Global,
        header: &Header,
        base: &State,
    ) -> Result<(PageTable, MainPass), Memory>
        requires { IsBase (facts_of header.now base.now) }
        ensures table { IfOk result (λ made. made.0.facts ≡ facts_of header.now base.now) }
        ensures main { IfOk result (λ made. IsFrom made.1 made.0 × (made.1.seen ≡ [])) }
    {
        let facts = opening_facts(alloc, header, base)?;
        let blocks = Blocks::of(&facts.layout);
        let (words, main) = begin(alloc, &facts, &blocks)?;
        let layout = layout_of(facts);
        Ok((
            PageTable {
                layout,
                blocks,
                words,
            },
            main,
        ))
    }

    /// The layout.
    #[inline]
    pub fn layout(&self) -> &Layout
        ensures { result.now ≡ self.now.facts.layout }
    {
        &self.layout
    }

    /// Begins a pass that owns a CPU, with the volumes that the CPU has by then.
    pub fn cpu_pass(&self, main: &mut MainPass, cpu: CpuId, volume: Volume) -> CpuPass
        requires table { IsFrom main.old self.now }
        requires online { MayOwnCpu self.now.facts.layout self.now.facts.base.cpu (Some cpu) }
        requires free { IsFree role main.old.seen (Some cpu) }
        requires volume { HoldsSpending self.now.facts.layout main.old.seen cpu.number volume }
        ensures begun { HasBegun pages Split main.new main.old result.pass (Some cpu) }
        ensures volume { result.volume ≡ volume }
    {
        let first_group = self.blocks.first_group(&self.layout, cpu);
        let worker = main.main.begin(&self.words, Some(cpu));
        CpuPass {
            worker,
            cpu,
            first_group,
            volume,
        }
    }

    /// Begins the control pass, which goes on from what an earlier one knew of the settings.
    pub fn control_pass(&self, main: &mut MainPass) -> ControlPass
        requires table { IsFrom main.old self.now }
        requires free { IsFree role main.old.seen None }
        ensures begun { HasBegun pages Split main.new main.old result None }
    {
        let Some(kept) = main.kept.take() else {
            unreachable!();
        };
        let worker = main.main.begin(&self.words, None);
        ControlPass { worker, kept }
    }

    /// Ends a pass that owns a CPU, and gives the CPU's volumes back.
    pub fn join_cpu(&self, main: &mut MainPass, pass: CpuPass) -> Volume
        requires table { IsFrom main.old self.now × IsFrom pass.pass self.now }
        requires carries { CarriesNothing self.now.facts.layout (own pass.pass.seen pass.pass.number) }
        ensures ended { HasEnded pages Join main.new main.old pass.pass }
        ensures volume { result ≡ pass.volume }
    {
        let CpuPass {
            worker,
            cpu: _,
            first_group: _,
            volume,
        } = pass;
        main.main.end(&self.words, worker);
        volume
    }

    /// Ends the control pass.
    pub fn join_control(&self, main: &mut MainPass, pass: ControlPass)
        requires table { IsFrom main.old self.now × IsFrom pass self.now }
        requires carries { CarriesNothing self.now.facts.layout (own pass.seen pass.number) }
        ensures ended { HasEnded pages Join main.new main.old pass }
    {
        let ControlPass { worker, kept } = pass;
        main.main.end(&self.words, worker);
        main.kept = Some(kept);
    }
}

impl PageTable {
    /// Closes the table, once every other pass has ended, and writes its last state as the next phase begins with it:
    /// nothing acknowledged, and nothing set. The history is what the main pass has seen.
    pub fn close(self, main: MainPass, into: &mut State) -> PhaseHistory
        requires table { IsFrom main self }
        requires ended { (q : ℕ) → lives_in role main.seen q ≡ false }
        requires shaped { HasShape self.facts.layout into.old }
        ensures history { result ≡ record { facts = self.facts; events = main.seen } }
        ensures state { into.new ≡ settled (state_after self.facts main.seen) }
    {
        let MainPass { main, kept: _ } = main;
        main.is_main();
        let PageTable {
            layout,
            blocks,
            words,
        } = self;
        let cpus = layout.cpus() as usize;
        let groups = layout.groups() as usize;
        let places = layout.places() as usize;
        let closing = words.close(main);
        write_state(&closing, &blocks, cpus, groups, places, into);
        closing.leave()
    }
}

/// Writes the last state as the next phase begins with it.
fn write_state(
    closing: &Closing<SharedPages>,
    blocks: &Blocks,
    cpus: usize,
    groups: usize,
    places: usize,
    into: &mut State,
)
    requires legal { IsLegal closing.now.facts closing.now.events }
    requires laid { blocks.now ≡ blocks_of closing.now.facts.layout }
    requires shaped { HasShape closing.now.facts.layout into.old }
    requires counts { (cpus ≡ closing.now.facts.layout.cpus) × (groups ≡ group_count closing.now.facts.layout)
        × (places ≡ place_count closing.now.facts.layout) }
    requires there { AreThere closing.now.facts (state_after closing.now.facts closing.now.events) blocks.now
        cpus groups places into.old }
    ensures { into.new ≡ settled (state_after closing.now.facts closing.now.events) }
{
    let width = blocks.width;
    let thresholds = blocks.rows + blocks.thresholds;
    let states = blocks.rows + blocks.state;
    fill_row::<SharedPages, i64, Signed>(closing, 0, &mut into.place);
    fill_row::<SharedPages, i64, Signed>(closing, blocks.systems, &mut into.system);
    fill_row::<SharedPages, u64, Marks>(closing, blocks.marks, &mut into.mark);
    fill_groups(closing, blocks.rows, width, cpus, groups, &mut into.diff);
    let threshold = &mut into.threshold;
    fill_rows::<SharedPages, u32, Thresholds>(closing, thresholds, width, cpus, threshold, places);
    fill_rows::<SharedPages, CpuState, Cpus>(closing, states, width, cpus, &mut into.cpu, 1);
    clear(&mut into.acknowledged, None);
    clear(&mut into.threshold_sets, 0);
    clear(&mut into.mark_sets, 0);
}

/// What a phase on the page counters begins with.
fn opening_facts(alloc: Global, header: &Header, base: &State) -> Result<Facts, Memory>
    ensures { IfOk result (λ facts. facts ≡ facts_of header.now base.now) }
{
    let sizes = Row::from_slice(alloc, header.sizes.as_slice())?;
    let base = copied(alloc, base)?;
    Ok(Facts {
        layout: header.layout.copied(),
        sizes,
        base,
    })
}

/// The layout of facts, of which nothing else is left.
fn layout_of(facts: Facts) -> Layout
    ensures { result ≡ facts.layout }
{
    let Facts {
        layout,
        sizes: _,
        base: _,
    } = facts;
    layout
}

/// The words of a phase that begins with these facts, and the main pass on them.
fn begin(
    alloc: Global,
    facts: &Facts,
    blocks: &Blocks,
) -> Result<(Words<SharedPages>, MainPass), Memory>
    requires base { IsBase facts.now }
    requires laid { blocks.now ≡ blocks_of facts.now.layout }
    ensures words { IfOk result (λ begun. (begun.0.facts ≡ facts.now) × (begun.0.table.words ≡ blocks.now.end)) }
    ensures main { IfOk result (λ begun. IsFrom begun.1 begun.0 × (begun.1.seen ≡ [])) }
{
    let kept = Settings::opening(alloc, &facts.layout, &facts.base)?;
    let first = opening_words(alloc, &facts.layout, blocks, &facts.base)?;
    let (words, main) = Words::make(alloc, facts, first.as_slice())?;
    Ok((
        words,
        MainPass {
            main,
            kept: Some(kept),
        },
    ))
}

/// A copy of a state.
fn copied(alloc: Global, state: &State) -> Result<State, Memory>
    ensures { IfOk result (λ copy. copy ≡ state.now) }
{
    let (place, system, diff) = copied_values(alloc, state)?;
    let (threshold, mark, cpu) = copied_settings(alloc, state)?;
    let (acknowledged, threshold_sets, mark_sets) = copied_numbers(alloc, state)?;
    Ok(State {
        place,
        system,
        diff,
        threshold,
        mark,
        cpu,
        acknowledged,
        threshold_sets,
        mark_sets,
    })
}

/// Copies of the global values, the system-wide values and the differentials.
fn copied_values(alloc: Global, state: &State) -> Result<(Row<i64>, Row<i64>, Row<i64>), Memory>
    ensures { IfOk result (λ copies. (copies.0 ≡ state.now.place) × (copies.1 ≡ state.now.system)
        × (copies.2 ≡ state.now.diff)) }
{
    let place = Row::from_slice(alloc, state.place.as_slice())?;
    let system = Row::from_slice(alloc, state.system.as_slice())?;
    let diff = Row::from_slice(alloc, state.diff.as_slice())?;
    Ok((place, system, diff))
}

/// Copies of the thresholds, the marks and the CPUs' states.
fn copied_settings(
    alloc: Global,
    state: &State,
) -> Result<(Row<u32>, Row<u64>, Row<CpuState>), Memory>
    ensures { IfOk result (λ copies. (copies.0 ≡ state.now.threshold) × (copies.1 ≡ state.now.mark)
        × (copies.2 ≡ state.now.cpu)) }
{
    let threshold = Row::from_slice(alloc, state.threshold.as_slice())?;
    let mark = Row::from_slice(alloc, state.mark.as_slice())?;
    let cpu = Row::from_slice(alloc, state.cpu.as_slice())?;
    Ok((threshold, mark, cpu))
}

/// Copies of what was acknowledged, and of how often each threshold and each mark was set.
fn copied_numbers(
    alloc: Global,
    state: &State,
) -> Result<(Row<Option<u32>>, Row<u32>, Row<u32>), Memory>
    ensures { IfOk result (λ copies. (copies.0 ≡ state.now.acknowledged)
        × (copies.1 ≡ state.now.threshold_sets) × (copies.2 ≡ state.now.mark_sets)) }
{
    let acknowledged = Row::from_slice(alloc, state.acknowledged.as_slice())?;
    let threshold_sets = Row::from_slice(alloc, state.threshold_sets.as_slice())?;
    let mark_sets = Row::from_slice(alloc, state.mark_sets.as_slice())?;
    Ok((acknowledged, threshold_sets, mark_sets))
}
