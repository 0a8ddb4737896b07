ghost use Rattle.std.specs.Prelude.{ℕ, ◌<◌, ◌^◌, length};
ghost use Rattle.vms_world.specs.Common.{Header, online_from, sum_over, IsEvent, IsWorldOf};
ghost use Rattle.vms_plain_events.specs.Common.{HasWords};
ghost use Rattle.vms_world.specs.declared.worlds.World.{World};

/// The law that the events of a world leave room for the sum over the CPUs that are online.
pub(crate) fn worlds_leave_room()
    ensures words { (header : Header) (w : World) → IsWorldOf header w → HasWords w.events (length w.pages.cpu) }
    ensures sums { (header : Header) (w : World) (k : ℕ) → IsWorldOf header w → IsEvent k →
        sum_over w.events k (online_from 0 w.pages.cpu) < 2 ^ 62 }
{
    vms_plain_events::histories_leave_room();
}
