ghost use Rattle.std.specs.Prelude.{◌≡◌, ℕ, ◌+◌, ◌<◌, ◌^◌, pos, ◌+ℤ◌, unsigned_abs, length, All, IfOk, slice_index_or};
ghost use Rattle.vms_base.specs.Common.{IsHeader};
ghost use Rattle.vms_script.specs.Totals.{ArePhases, ArePlainTotals, HasTotal, change_by, act_change, changes_by};
ghost use Rattle.vms_script.specs.Totals.{sizes_by};

use crate::PhaseScript;
use std::alloc::Global;
use vms_base::{CounterId, Header, Memory, Row};
use vms_line::{Act, Item};

/// What the counters come to, in pages, by counter.
pub type PageTotals = Row<i64>;

/// What each counter comes to: its base and all that the lines of these phases change it by.
pub fn plain_totals(
    alloc: Global,
    header: &Header,
    phases: &[PhaseScript],
) -> Result<PageTotals, Memory>
    requires header { IsHeader header.now }
    requires phases { ArePhases header.now phases.now }
    ensures { IfOk result (λ totals. ArePlainTotals header.now phases.now totals) }
{
    let mut totals = Row::from_slice(alloc, header.bases.as_slice())?;
    for phase in phases {
        add_phase(&mut totals, phase.as_slice());
    }
    Ok(totals)
}

/// Adds what the lines of a phase change each counter by to its total.
fn add_phase(totals: &mut PageTotals, items: &[Item])
    requires known { All (λ item. HasTotal totals.old item.act) items.now }
    requires room { (k : ℕ) → k < length totals.old →
        unsigned_abs (slice_index_or totals.old k (pos 0)) + sizes_by k items.now < 2 ^ 63 }
    ensures each { length totals.new ≡ length totals.old }
    ensures is { (k : ℕ) → k < length totals.old →
        slice_index_or totals.new k (pos 0) ≡ slice_index_or totals.old k (pos 0) +ℤ changes_by k items.now }
{
    for item in items {
        if let Some((counter, pages)) = change_of(item.act) {
            let index = counter.number as usize;
            totals.set(index, totals.get(index) + pages);
        }
    }
}

/// The counter that an act changes, and by how many pages.
fn change_of(act: Act) -> Option<(CounterId, i64)>
    ensures { result ≡ act_change act }
{
    match act {
        Act::Mod(counter, pages) => Some((counter, pages)),
        Act::Inc(counter) => Some((counter, 1)),
        Act::Dec(counter) => Some((counter, -1)),
        _ => None,
    }
}
