ghost use Rattle.std.specs.Prelude.{◌≡◌, ◌+◌, ◌≤◌, slice_index_or, slice_set, unsigned_abs};
ghost use Rattle.vms_world.specs.Common.{IsCounter, most_volume, own};
ghost use Rattle.vms_core.specs.Own.{CarriesNothing};
ghost use Rattle.vms_count.specs.Common.{GoesWith, HasChanged};
ghost use Rattle.vms_seats.specs.Common.{IsFrom};

use vms_base::{CounterId, Mode};
use vms_words::{CpuPass, PageTable};

/// Changes a counter by `delta` pages, where the volume has room.
#[inline]
pub(crate) fn change(
    table: &PageTable,
    pass: &mut CpuPass,
    counter: CounterId,
    delta: i64,
    mode: Mode,
)
    requires table { IsFrom pass.old.pass table.now }
    requires counter { IsCounter table.now.facts.layout counter.number }
    requires mode { GoesWith mode delta }
    requires nothing { CarriesNothing table.now.facts.layout (own pass.old.pass.seen pass.old.pass.number) }
    requires room { slice_index_or pass.old.volume counter.number 0 + unsigned_abs delta ≤ most_volume }
    ensures made { HasChanged table.now.facts.layout pass.new.pass pass.old.pass counter delta mode }
    ensures volume { pass.new.volume ≡ slice_set pass.old.volume counter.number
        (slice_index_or pass.old.volume counter.number 0 + unsigned_abs delta) }
    ensures carries { CarriesNothing table.now.facts.layout (own pass.new.pass.seen pass.new.pass.number) }
{
    match vms_count::add(table, pass, counter, delta, mode) {
        Ok(()) => {}
        Err(_) => unreachable!(),
    }
}
