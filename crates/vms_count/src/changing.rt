ghost use Rattle.std.specs.Prelude.{◌≡◌, ◌+◌, ◌<◌, ◌≤◌, ◌↔◌, List, slice_index_or, slice_set, unsigned_abs, IsErr};
ghost use Rattle.std.specs.Prelude.{OnOk, OnErr, IfErr, Some, pos, negsuc};
ghost use Rattle.vms_calls.specs.Common.{Inc, Dec, IsCounter, IsCpu, most_volume, own, Carries, Step, CarriesNothing};
ghost use Rattle.vms_calls.specs.Common.{pages};
ghost use Rattle.vms_seats.specs.Common.{IsFrom, Made};
ghost use Rattle.vms_count.specs.Changing.{GoesWith, HasChanged, CarriesFor, HasLoaded, HasExchanged};

use crate::counters::{item_of, place_of};
use vms_base::{CounterId, CpuId, Mode, Overflow};
use vms_words::{Caller, CpuPass, PackedDiffs, PageTable, PutDone};

/// What one CPU may change a counter by over a run, in absolute sum.
const MOST_VOLUME: u64 = 1 << 48;

/// Changes a counter by `delta` pages on the pass's CPU, with two exchanges at most, whatever others fold meanwhile
/// (`mod_zone_state` and `mod_node_state` of mm/vmstat.c).
#[inline]
pub fn add(
    table: &PageTable,
    pass: &mut CpuPass,
    counter: CounterId,
    delta: i64,
    mode: Mode,
) -> Result<(), Overflow>
    requires table { IsFrom pass.old.pass table.now }
    requires counter { IsCounter table.now.facts.layout counter.number }
    requires mode { GoesWith mode delta }
    requires nothing { CarriesNothing table.now.facts.layout (own pass.old.pass.seen pass.old.pass.number) }
    ensures made { OnOk result (HasChanged table.now.facts.layout pass.new.pass pass.old.pass counter delta mode) }
    ensures volume { OnOk result (pass.new.volume ≡ slice_set pass.old.volume counter.number
        (slice_index_or pass.old.volume counter.number 0 + unsigned_abs delta)) }
    ensures carries { CarriesNothing table.now.facts.layout (own pass.new.pass.seen pass.new.pass.number) }
    ensures overflow { IsErr result
        ↔ (most_volume < slice_index_or pass.old.volume counter.number 0 + unsigned_abs delta) }
    ensures told { IfErr result (λ e. e ≡ record {
      volume = slice_index_or pass.old.volume counter.number 0;
      size = unsigned_abs delta;
    }) }
    ensures err { OnErr result (pass.new ≡ pass.old) }
{
    let volume = pass.volume(counter);
    let size = delta.unsigned_abs();
    if size > MOST_VOLUME || volume > MOST_VOLUME - size {
        return Err(Overflow { volume, size });
    }
    change(table, pass, counter, delta, mode);
    Ok(())
}

#[inline]
fn change(table: &PageTable, pass: &mut CpuPass, counter: CounterId, delta: i64, mode: Mode)
    requires table { IsFrom pass.old.pass table.now }
    requires counter { IsCounter table.now.facts.layout counter.number }
    requires nothing { CarriesNothing table.now.facts.layout (own pass.old.pass.seen pass.old.pass.number) }
    requires room { slice_index_or pass.old.volume counter.number 0 + unsigned_abs delta ≤ most_volume }
    ensures made { HasChanged table.now.facts.layout pass.new.pass pass.old.pass counter delta mode }
    ensures volume { pass.new.volume ≡ slice_set pass.old.volume counter.number
        (slice_index_or pass.old.volume counter.number 0 + unsigned_abs delta) }
    ensures carries { CarriesNothing table.now.facts.layout (own pass.new.pass.seen pass.new.pass.number) }
{
    let cpu = pass.cpu();
    let place = place_of(table.layout(), counter);
    let threshold = table.load_threshold(pass, place).t;
    let amount = exchange(table, pass, cpu, counter, threshold, delta, mode);
    carry(table, pass, counter, amount);
}

// The group is exchanged as it was found. A lost exchange has found it empty, and it stays so until the pass puts.
#[inline]
fn exchange(
    table: &PageTable,
    pass: &mut CpuPass,
    cpu: CpuId,
    counter: CounterId,
    threshold: u32,
    delta: i64,
    mode: Mode,
) -> i64
    requires table { IsFrom pass.old.pass table.now }
    requires owns { pass.old.pass.cpu ≡ Some cpu }
    requires cpu { IsCpu table.now.facts.layout cpu.number }
    requires counter { IsCounter table.now.facts.layout counter.number }
    requires loaded { HasLoaded table.now.facts.layout pass.old.pass counter threshold }
    requires nothing { CarriesNothing table.now.facts.layout (own pass.old.pass.seen pass.old.pass.number) }
    requires room { slice_index_or pass.old.volume counter.number 0 + unsigned_abs delta ≤ most_volume }
    ensures made { HasExchanged pass.new.pass pass.old.pass counter threshold delta mode result }
    ensures carries { CarriesFor table.now.facts.layout counter.number result
        (own pass.new.pass.seen pass.new.pass.number) }
    ensures volume { pass.new.volume ≡ slice_set pass.old.volume counter.number
        (slice_index_or pass.old.volume counter.number 0 + unsigned_abs delta) }
{
    let group = table.layout().group(counter);
    let found = table.load_diffs(pass, cpu, group);
    match table.put(pass, counter, &found, threshold, delta, mode) {
        PutDone::Done(amount) => amount,
        PutDone::Missed => {
            let zeros = PackedDiffs::zeros();
            match table.put(pass, counter, &zeros, threshold, delta, mode) {
                PutDone::Done(amount) => amount,
                PutDone::Missed => unreachable!(),
            }
        }
    }
}

// What the pass carries goes to both global values: no step is made for 0.
#[inline]
fn carry(table: &PageTable, pass: &mut CpuPass, counter: CounterId, amount: i64)
    requires table { IsFrom pass.old.pass table.now }
    requires counter { IsCounter table.now.facts.layout counter.number }
    requires carries { CarriesFor table.now.facts.layout counter.number amount
        (own pass.old.pass.seen pass.old.pass.number) }
    ensures made { (additions : List Step) × Carries table.now.facts.layout counter amount additions
        × Made pages pass.new.pass pass.old.pass additions }
    ensures volume { pass.new.volume ≡ pass.old.volume }
{
    pass.is_live();
    if amount != 0 {
        table.add_place(pass, counter, amount);
        table.add_system(pass, item_of(table.layout(), counter), amount);
    }
}

/// Adds a page to a counter (`inc_zone_page_state` and `inc_node_page_state` of mm/vmstat.c): a change by 1 that
/// oversteps by half a threshold.
#[inline]
pub fn inc(table: &PageTable, pass: &mut CpuPass, counter: CounterId) -> Result<(), Overflow>
    requires table { IsFrom pass.old.pass table.now }
    requires counter { IsCounter table.now.facts.layout counter.number }
    requires nothing { CarriesNothing table.now.facts.layout (own pass.old.pass.seen pass.old.pass.number) }
    ensures made { OnOk result (HasChanged table.now.facts.layout pass.new.pass pass.old.pass counter (pos 1) Inc) }
    ensures volume { OnOk result (pass.new.volume ≡ slice_set pass.old.volume counter.number
        (slice_index_or pass.old.volume counter.number 0 + 1)) }
    ensures carries { CarriesNothing table.now.facts.layout (own pass.new.pass.seen pass.new.pass.number) }
    ensures overflow { IsErr result ↔ (most_volume < slice_index_or pass.old.volume counter.number 0 + 1) }
    ensures told { IfErr result (λ e. e ≡ record {
      volume = slice_index_or pass.old.volume counter.number 0;
      size = 1;
    }) }
    ensures err { OnErr result (pass.new ≡ pass.old) }
{
    add(table, pass, counter, 1, Mode::Inc)
}

/// Takes a page from a counter (`dec_zone_page_state` and `dec_node_page_state` of mm/vmstat.c): a change by -1 that
/// oversteps by half a threshold.
#[inline]
pub fn dec(table: &PageTable, pass: &mut CpuPass, counter: CounterId) -> Result<(), Overflow>
    requires table { IsFrom pass.old.pass table.now }
    requires counter { IsCounter table.now.facts.layout counter.number }
    requires nothing { CarriesNothing table.now.facts.layout (own pass.old.pass.seen pass.old.pass.number) }
    ensures made { OnOk result (HasChanged table.now.facts.layout pass.new.pass pass.old.pass counter (negsuc 0) Dec) }
    ensures volume { OnOk result (pass.new.volume ≡ slice_set pass.old.volume counter.number
        (slice_index_or pass.old.volume counter.number 0 + 1)) }
    ensures carries { CarriesNothing table.now.facts.layout (own pass.new.pass.seen pass.new.pass.number) }
    ensures overflow { IsErr result ↔ (most_volume < slice_index_or pass.old.volume counter.number 0 + 1) }
    ensures told { IfErr result (λ e. e ≡ record {
      volume = slice_index_or pass.old.volume counter.number 0;
      size = 1;
    }) }
    ensures err { OnErr result (pass.new ≡ pass.old) }
{
    add(table, pass, counter, -1, Mode::Dec)
}
