ghost use Rattle.std.specs.Prelude.{◌≡◌, ◌+◌, ◌<◌, ◌≤◌, ◌↔◌, [], ◌∷◌, slice_index, slice_set, unsigned_abs, IsErr};
ghost use Rattle.std.specs.Prelude.{OnOk, OnErr, IfErr};
ghost use Rattle.vms_history.specs.Common.{most_volume};
ghost use Rattle.vms_group_core.specs.declared.steps.GroupStep.TheVariants.{AddP};
ghost use Rattle.vms_group_core.specs.Common.{groups, IsGroup};
ghost use Rattle.vms_seats.specs.Common.{IsFrom, Made};

use crate::passes::GroupPass;
use crate::tables::GroupTable;
use vms_base::Overflow;

/// What one CPU may change a group by over a run.
const MOST_VOLUME: u64 = 1 << 48;

impl GroupTable {
    /// Changes a group by an amount, on the pass's CPU (`mod_memcg_state` of include/linux/memcontrol.h).
    pub fn change(&self, pass: &mut GroupPass, group: u32, delta: i64) -> Result<(), Overflow>
        requires table { IsFrom pass.old.pass self.now }
        requires group { IsGroup self.now.facts.tree group }
        ensures made { OnOk result (Made groups pass.new.pass pass.old.pass (AddP group delta ∷ [])) }
        ensures volume { OnOk result (pass.new.volume ≡ slice_set pass.old.volume group
            (slice_index pass.old.volume group + unsigned_abs delta)) }
        ensures overflow { IsErr result ↔ (most_volume < slice_index pass.old.volume group + unsigned_abs delta) }
        ensures told { IfErr result (λ e.
            e ≡ record { volume = slice_index pass.old.volume group; size = unsigned_abs delta }) }
        ensures err { OnErr result (pass.new ≡ pass.old) }
    {
        let size = delta.unsigned_abs();
        let volume = pass.volume_of(group);
        if size > MOST_VOLUME || volume > MOST_VOLUME - size {
            return Err(Overflow { volume, size });
        }
        self.change_within(pass, group, delta);
        Ok(())
    }

    fn change_within(&self, pass: &mut GroupPass, group: u32, delta: i64)
        requires table { IsFrom pass.old.pass self.now }
        requires group { IsGroup self.now.facts.tree group }
        requires room { slice_index pass.old.volume group + unsigned_abs delta ≤ most_volume }
        ensures made { Made groups pass.new.pass pass.old.pass (AddP group delta ∷ []) }
        ensures volume { pass.new.volume ≡ slice_set pass.old.volume group
            (slice_index pass.old.volume group + unsigned_abs delta) }
    {
        let at = group as usize;
        let sum = pass.volume.get(at) + delta.unsigned_abs();
        self.add_pending(&mut pass.worker, pass.cpu, group, delta);
        pass.volume.set(at, sum);
    }
}

impl GroupPass {
    /// What the pass's CPU has changed a group by since the run began, in absolute sum.
    #[inline]
    pub fn volume_of(&self, group: u32) -> u64
        requires { IsGroup self.now.pass.facts.tree group }
        ensures { result ≡ slice_index self.now.volume group }
    {
        self.volume.get(group as usize)
    }
}
