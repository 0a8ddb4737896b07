ghost use Rattle.std.specs.Prelude.{◌≡◌, ◌*◌, length};
ghost use Rattle.vms_group_core.specs.Common.{IsTree, group_count};
ghost use Rattle.vms_group_phase.specs.Listed.{listed_by_cpu};
ghost use Rattle.vms_group_phase.specs.Worlds.{FitVolumes, group_volume_after};

use crate::items::GroupItem;
use vms_base::Row;
use vms_group_core::{GroupCall, Tree};

/// Has the volumes of each CPU grow by what its lines change.
pub(crate) fn grow_volumes(volumes: &mut Row<u64>, tree: &Tree, items: &[GroupItem])
    requires tree { IsTree tree.now }
    requires one_each { length volumes.old ≡ tree.now.cpus * group_count tree.now }
    requires fit { FitVolumes tree.now volumes.old items.now }
    ensures { volumes.new ≡ listed_by_cpu (group_volume_after volumes.old tree.now items.now) tree.now.cpus
        (group_count tree.now) }
{
    let groups = tree.parents.len();
    for item in items {
        if let GroupCall::Change(group, delta) = item.call {
            let at = item.cpu.number as usize * groups + group as usize;
            volumes.set(at, volumes.get(at) + delta.unsigned_abs());
        }
    }
}
