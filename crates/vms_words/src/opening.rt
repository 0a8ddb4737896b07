ghost use Rattle.std.specs.Prelude.{◌≡◌, ◌+◌, [], OnOk, IfOk};
ghost use Rattle.vms_calls.specs.Common.{IsCpu, IsLayout, IsOpening, cell};
ghost use Rattle.vms_words.specs.Shown.{first_words};
ghost use Rattle.vms_words.specs.Spots.{blocks_of};

use crate::packed::word_by;
use crate::spots::Blocks;
use std::alloc::Global;
use vms_base::{CpuId, Layout, Memory};
use vms_core::State;

/// The words that show the state in which a phase begins.
pub(crate) fn opening_words(
    alloc: Global,
    layout: &Layout,
    blocks: &Blocks,
    state: &State,
) -> Result<Vec<u64>, Memory>
    requires layout { IsLayout layout.now }
    requires laid { blocks.now ≡ blocks_of layout.now }
    requires opening { IsOpening layout.now state.now }
    ensures { IfOk result (λ words. words.items ≡ first_words state.now blocks.now blocks.now.end) }
{
    let mut words = Vec::with_capacity(alloc, blocks.end)?;
    push_shared(&mut words, layout, blocks, state)?;
    for number in 0..layout.cpus() {
        push_row(&mut words, layout, blocks, state, CpuId { number })?;
    }
    Ok(words)
}

/// Appends the words before the rows.
fn push_shared(
    words: &mut Vec<u64>,
    layout: &Layout,
    blocks: &Blocks,
    state: &State,
) -> Result<(), Memory>
    requires layout { IsLayout layout.now }
    requires laid { blocks.now ≡ blocks_of layout.now }
    requires opening { IsOpening layout.now state.now }
    requires first { words.old.items ≡ [] }
    ensures { OnOk result (words.new.items ≡ first_words state.now blocks.now blocks.now.rows) }
{
    for place in 0..blocks.rows {
        words.push(word_by(layout, state, blocks.before_rows(place)))?;
    }
    Ok(())
}

/// Appends the words of a CPU's row.
fn push_row(
    words: &mut Vec<u64>,
    layout: &Layout,
    blocks: &Blocks,
    state: &State,
    cpu: CpuId,
) -> Result<(), Memory>
    requires layout { IsLayout layout.now }
    requires laid { blocks.now ≡ blocks_of layout.now }
    requires opening { IsOpening layout.now state.now }
    requires cpu { IsCpu layout.now cpu.number }
    requires first { words.old.items
        ≡ first_words state.now blocks.now (blocks.now.rows + cell blocks.now.width cpu.number 0) }
    ensures { OnOk result (words.new.items
        ≡ first_words state.now blocks.now (blocks.now.rows + cell blocks.now.width (cpu.number + 1) 0)) }
{
    for place in 0..blocks.width {
        words.push(word_by(layout, state, blocks.in_row(cpu, place)))?;
    }
    Ok(())
}
