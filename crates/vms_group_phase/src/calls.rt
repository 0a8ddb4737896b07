ghost use Rattle.std.specs.Prelude.{◌≡◌, ◌+◌, ◌≤◌, [], ◌∷◌, slice_index, slice_set, unsigned_abs};
ghost use Rattle.vms_history.specs.Common.{most_volume};
ghost use Rattle.vms_group_core.specs.declared.steps.GroupStep.TheVariants.{AddP};
ghost use Rattle.vms_group_core.specs.Common.{IsGroup, group_spent, groups};
ghost use Rattle.vms_group_phase.specs.LaneRuns.{HasGrown, HasRoom, MakesCall};
ghost use Rattle.vms_group_phase.specs.Lines.{group_of};
ghost use Rattle.vms_seats.specs.Common.{IsFrom, Made};

use vms_group::{GroupPass, GroupTable};
use vms_group_core::{GroupAnswer, GroupCall};

/// Makes a call, where the volumes have room for it, and returns what it answers.
pub(crate) fn make_call(table: &GroupTable, pass: &mut GroupPass, call: GroupCall) -> GroupAnswer
    requires table { IsFrom pass.old.pass table.now }
    requires group { IsGroup table.now.facts.tree (group_of call) }
    requires room { HasRoom table.now.facts.tree (group_spent call) pass.old.volume }
    ensures makes { MakesCall table.now.facts call result pass.new.pass pass.old.pass }
    ensures grown { HasGrown table.now.facts.tree (group_spent call) pass.new.volume pass.old.volume }
{
    pass.cpu();
    match call {
        GroupCall::Change(group, delta) => {
            change(table, pass, group, delta);
            GroupAnswer::Done
        }
        GroupCall::Flush(group) => {
            table.flush(pass, group);
            GroupAnswer::Done
        }
        GroupCall::Value(group) => GroupAnswer::Value(table.value(pass, group)),
    }
}

/// Changes a group, where the volume has room.
#[inline]
fn change(table: &GroupTable, pass: &mut GroupPass, group: u32, delta: i64)
    requires table { IsFrom pass.old.pass table.now }
    requires group { IsGroup table.now.facts.tree group }
    requires room { slice_index pass.old.volume group + unsigned_abs delta ≤ most_volume }
    ensures made { Made groups pass.new.pass pass.old.pass (AddP group delta ∷ []) }
    ensures volume { pass.new.volume ≡ slice_set pass.old.volume group
        (slice_index pass.old.volume group + unsigned_abs delta) }
{
    match table.change(pass, group, delta) {
        Ok(()) => {}
        Err(_) => unreachable!(),
    }
}
