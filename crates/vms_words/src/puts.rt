use crate::lists::PackedDiffs;
use crate::passes::CpuPass;
use crate::tables::PageTable;
use vms_base::{CounterId, Mode};
use vms_core::{Step, overstep};
use vms_seats::Works;

/// What came of a put.
#[derive(Clone, Copy, Debug, PartialEq, Eq)]
pub enum PutDone {
    /// It was made, and the pass carries this amount for the counter's global values, in pages.
    Done(i64),
    /// Another caller had taken the group, so that all its eight differentials were 0. They are still.
    Missed,
}

impl PageTable {
    ghost use Rattle.vms_seats.specs.Common.{IsFrom};
    ghost use Rattle.vms_words.specs.Puts.{MayPut, PutsOrMisses};

    /// Changes an own differential where its group still is the list that was found (`mod_zone_state` of mm/vmstat.c).
    #[inline]
    pub fn put(
        &self,
        pass: &mut CpuPass,
        counter: CounterId,
        found: &PackedDiffs,
        threshold: u32,
        delta: i64,
        mode: Mode,
    ) -> PutDone
        requires table { IsFrom pass.old.pass self.now }
        requires puts { MayPut pass.old counter found.now threshold delta }
        ensures { PutsOrMisses pass.new pass.old counter found.now threshold delta mode result }
    {
        let first_group = pass.first_group;
        let position = counter.number % 8;
        let changed = change(mode, threshold, found.entry(position), delta);
        let old = found.word();
        let new = found.with_entry(position, changed.differential).word();
        let group = self.layout.group(counter);
        let place = first_group + group.number as usize;
        let plan = Step::Put(counter, found.list(), threshold, delta, mode);
        let stood = pass.worker.exchange_at(&self.words, place, old, new, &plan);
        if stood != old {
            return PutDone::Missed;
        }
        let at = counter.number as usize;
        let volume = pass.volume.get(at) + delta.unsigned_abs();
        pass.volume.set(at, volume);
        PutDone::Done(changed.carried)
    }
}

ghost use Rattle.std.specs.Prelude.{◌≡◌, ◌+◌, ◌≤◌, ◌^◌, unsigned_abs};
ghost use Rattle.vms_calls.specs.Common.{differential_after, carried_by};

/// What a change makes of a differential, in pages: the one that stays, and what goes to the global values.
#[derive(Clone, Copy)]
struct Changed {
    differential: i64,
    carried: i64,
}

#[inline]
fn change(mode: Mode, threshold: u32, found: i64, delta: i64) -> Changed
    requires found { unsigned_abs found ≤ 128 }
    requires delta { unsigned_abs delta ≤ 2 ^ 48 }
    ensures differential { result.differential ≡ differential_after mode threshold found delta }
    ensures within { unsigned_abs result.differential ≤ threshold }
    ensures carried { result.carried ≡ carried_by mode threshold found delta }
    ensures bound { unsigned_abs result.carried ≤ unsigned_abs found + unsigned_abs delta + threshold }
{
    let sum = found + delta;
    if sum.unsigned_abs() <= threshold as u64 {
        return Changed {
            differential: sum,
            carried: 0,
        };
    }
    let overstep = overstep(mode, threshold);
    Changed {
        differential: -overstep,
        carried: sum + overstep,
    }
}
