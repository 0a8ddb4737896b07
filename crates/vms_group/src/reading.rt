ghost use Rattle.std.specs.Prelude.{◌≡◌, [], ◌∷◌};
ghost use Rattle.vms_group_core.specs.declared.steps.GroupStep.TheVariants.{LoadV};
ghost use Rattle.vms_group_core.specs.Common.{groups, IsGroup};
ghost use Rattle.vms_seats.specs.Common.{IsFrom, Made};

use crate::passes::GroupPass;
use crate::tables::GroupTable;

impl GroupTable {
    /// A group's value, as it was flushed last (`memcg_page_state` of mm/memcontrol.c).
    pub fn value(&self, pass: &mut GroupPass, group: u32) -> i64
        requires table { IsFrom pass.old.pass self.now }
        requires group { IsGroup self.now.facts.tree group }
        ensures made { Made groups pass.new.pass pass.old.pass (LoadV group result ∷ []) }
        ensures volume { pass.new.volume ≡ pass.old.volume }
    {
        self.load_value(&mut pass.worker, group)
    }
}
