ghost use Rattle.vms_total_laws.specs.ReportedSums.{SumsAreTotals};
ghost use Rattle.vms_world.specs.Common.{Header, IsWorldOf};
ghost use Rattle.vms_world.specs.declared.worlds.World.{World};

/// In every world of a header the sum that `report counters` prints of a percpu counter is the total that `report
/// totals` prints of it: the CPUs that are present hold all local parts.
pub fn reported_sums_are_totals()
    ensures { (header : Header) (w : World) → IsWorldOf header w → SumsAreTotals header w }
{
    vms_plain_pcpu::present_cpus_hold_all();
}
