use crate::Plain;
use vms_base::{CounterId, CpuId, Layout, Mode};

impl Plain {
    ghost use Rattle.std.specs.Prelude.{◌≡◌, ◌+◌, ◌^◌, ◌<◌, ◌≤◌, ◌+ℤ◌, unsigned_abs};
    ghost use Rattle.vms_history.specs.Common.{IsCpu, IsCounter, item_of, Online};
    ghost use Rattle.vms_core.specs.Cells.{HasShape, cpu_at, value_at, system_at, diff_at};
    ghost use Rattle.vms_core.specs.ChangedStates.{with_carried, with_change};

    /// Changes a counter on a CPU, as a caller does that meets no other (`mod_zone_page_state`, `inc_zone_page_state`
    /// and `dec_zone_page_state` of mm/vmstat.c, and those of the nodes): `delta` pages, which are 1 and -1 in the
    /// kernel's `inc` and `dec`.
    #[inline(always)]
    pub fn change(
        &mut self,
        layout: &Layout,
        cpu: CpuId,
        counter: CounterId,
        delta: i64,
        mode: Mode,
    )
        requires shaped { HasShape layout.now self.old }
        requires cpu { IsCpu layout.now cpu.number }
        requires online { cpu_at self.old cpu.number ≡ Online }
        requires counter { IsCounter layout.now counter.number }
        requires delta { unsigned_abs delta ≤ 2 ^ 48 }
        requires value { unsigned_abs (value_at self.old counter.number) ≤ 2 ^ 61 }
        requires system { unsigned_abs (system_at self.old (item_of layout.now counter.number)) ≤ 2 ^ 61 }
        ensures after { self.new ≡ with_change layout.now cpu.number counter.number delta mode self.old }
        ensures total { value_at self.new counter.number +ℤ diff_at self.new cpu.number counter.number
            ≡ (value_at self.old counter.number +ℤ diff_at self.old cpu.number counter.number) +ℤ delta }
        ensures total_of_item { system_at self.new (item_of layout.now counter.number)
            +ℤ diff_at self.new cpu.number counter.number
            ≡ (system_at self.old (item_of layout.now counter.number) +ℤ diff_at self.old cpu.number counter.number)
            +ℤ delta }
        ensures value { unsigned_abs (value_at self.new counter.number)
            ≤ unsigned_abs (value_at self.old counter.number) + (unsigned_abs delta + 253) }
        ensures system { unsigned_abs (system_at self.new (item_of layout.now counter.number))
            ≤ unsigned_abs (system_at self.old (item_of layout.now counter.number)) + (unsigned_abs delta + 253) }
        ensures cpus { self.new.cpu ≡ self.old.cpu }
        ensures shaped { HasShape layout.now self.new }
    {
        let threshold = self.load_threshold(cpu, layout.place_of(counter));
        let found = self.load_diffs(cpu, layout.group(counter));
        let carried = self.put(cpu, counter, &found, threshold.t, delta, mode);
        self.carry(layout, counter, carried);
    }

    /// Adds what a change carries to both global values.
    #[inline]
    fn carry(&mut self, layout: &Layout, counter: CounterId, amount: i64)
        requires shaped { HasShape layout.now self.old }
        requires counter { IsCounter layout.now counter.number }
        requires value { unsigned_abs (value_at self.old counter.number +ℤ amount) < 2 ^ 62 }
        requires system { unsigned_abs (system_at self.old (item_of layout.now counter.number) +ℤ amount) < 2 ^ 62 }
        ensures { self.new ≡ with_carried layout.now counter.number amount self.old }
    {
        if amount != 0 {
            self.add_place(counter, amount);
            self.add_system(layout.item_of(counter), amount);
        }
    }
}
