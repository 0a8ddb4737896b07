use super::{cell, zero_eight};
use crate::Plain;
use crate::differentials::change;
use vms_base::{CounterId, CpuId, Diffs, GroupId, ItemId, Mode};

impl Plain {
    ghost use Rattle.std.specs.Prelude.{◌≡◌, ◌≢◌, ◌+◌, ◌/◌, ◌^◌, ◌<◌, ◌≤◌, ◌+ℤ◌, length, unsigned_abs, slice_set};
    ghost use Rattle.vms_history.specs.Common.{group_of, most_threshold, Online};
    ghost use Rattle.vms_core.specs.Changes.{differential_after, carried_by};
    ghost use Rattle.vms_core.specs.Cells.{counters_of, TellsGroup, entry, eight_zeros, cpu_at, value_at, system_at};
    ghost use Rattle.vms_core.specs.Cells.{with_diff, with_group_zeroed, with_value, with_system};

    /// Changes a differential, as `Put` does. Returns what the change carries to the global values.
    #[inline]
    pub fn put(
        &mut self,
        cpu: CpuId,
        counter: CounterId,
        found: &Diffs,
        threshold: u32,
        delta: i64,
        mode: Mode,
    ) -> i64
        requires cpu { cpu.number < length self.old.cpu }
        requires online { cpu_at self.old cpu.number ≡ Online }
        requires counter { counter.number < counters_of self.old }
        requires found { TellsGroup self.old cpu.number (group_of counter.number) found.now.values }
        requires threshold { threshold ≤ most_threshold }
        requires delta { unsigned_abs delta ≤ 2 ^ 48 }
        ensures diff { self.new ≡ with_diff self.old cpu.number counter.number
            (differential_after mode threshold (entry found.now.values counter.number) delta) }
        ensures carried { result ≡ carried_by mode threshold (entry found.now.values counter.number) delta }
        ensures bound { unsigned_abs result ≤ unsigned_abs delta + 253 }
    {
        let changed = change(
            mode,
            threshold,
            found.values[(counter.number % 8) as usize],
            delta,
        );
        let at = cell(self.counters, cpu, counter.number as usize);
        self.write_diff(at, changed.differential);
        changed.carried
    }

    #[inline]
    fn write_diff(&mut self, at: usize, differential: i64)
        requires within { at < length self.old.diff }
        requires small { unsigned_abs differential ≤ most_threshold }
        ensures { self.new ≡ record self.old { diff = slice_set self.old.diff at differential } }
    {
        self.state.diff.set(at, differential);
    }

    /// An exchange that lost, as `Miss` is: it changes nothing, since another caller took the group that was found.
    #[inline]
    pub fn miss(&self, cpu: CpuId, group: GroupId, found: &Diffs)
        requires cpu { cpu.number < length self.now.cpu }
        requires group { group.number < counters_of self.now / 8 }
        requires zeros { TellsGroup self.now cpu.number group.number eight_zeros }
        requires other { found.now.values ≢ eight_zeros }
    {}

    /// Takes the differentials of a CPU in a group, as `Take` does: they become 0.
    #[inline]
    pub fn take(&mut self, cpu: CpuId, group: GroupId) -> Diffs
        requires cpu { cpu.number < length self.old.cpu }
        requires group { group.number < counters_of self.old / 8 }
        ensures told { TellsGroup self.old cpu.number group.number result.values }
        ensures zeroed { self.new ≡ with_group_zeroed self.old cpu.number group.number }
    {
        let found = self.load_diffs(cpu, group);
        let at = cell(self.counters, cpu, 8 * group.number as usize);
        zero_eight(&mut self.state.diff, at);
        found
    }

    /// Adds to a global value, as `AddG` does.
    #[inline]
    pub fn add_place(&mut self, counter: CounterId, amount: i64)
        requires counter { counter.number < counters_of self.old }
        requires bound { unsigned_abs (value_at self.old counter.number +ℤ amount) < 2 ^ 62 }
        ensures { self.new ≡ with_value self.old counter.number (value_at self.old counter.number +ℤ amount) }
    {
        let at = counter.number as usize;
        let value = self.state.place.get(at) + amount;
        self.state.place.set(at, value);
    }

    /// Adds to a system-wide value, as `AddS` does.
    #[inline]
    pub fn add_system(&mut self, item: ItemId, amount: i64)
        requires item { item.number < length self.old.system }
        requires bound { unsigned_abs (system_at self.old item.number +ℤ amount) < 2 ^ 62 }
        ensures { self.new ≡ with_system self.old item.number (system_at self.old item.number +ℤ amount) }
    {
        let at = item.number as usize;
        let value = self.state.system.get(at) + amount;
        self.state.system.set(at, value);
    }
}
