ghost use Rattle.vms_spending_laws.specs.LeftWorlds.{CoverSpending, left_with, spent_volumes};
ghost use Rattle.vms_world.specs.Common.{AreComplete, Header, IsWorldOf, LeavesNothing, StayWithinVolumes};
ghost use Rattle.vms_world.specs.Common.{TableHistories};
ghost use Rattle.vms_world.specs.declared.worlds.Volumes.{Volumes};
ghost use Rattle.vms_world.specs.declared.worlds.World.{World};

/// Complete histories lead from a world of a header to one of it, whatever lines they make, if the volumes that it is
/// given cover what the CPUs have spent, and whoever is absent in the end has nothing left in the tables of events and
/// of percpu counters. As long as no CPU passes its volumes, what the CPUs have spent does for volumes.
pub fn histories_keep_worlds()
    ensures world { (header : Header) (w : World) (hs : TableHistories) (v : Volumes) → IsWorldOf header w →
        AreComplete header w hs → CoverSpending header w hs v → LeavesNothing header (left_with header w hs v) →
        IsWorldOf header (left_with header w hs v) }
    ensures least { (header : Header) (w : World) (hs : TableHistories) → IsWorldOf header w →
        StayWithinVolumes header w hs → CoverSpending header w hs (spent_volumes header w hs) }
{}
