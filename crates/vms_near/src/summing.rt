ghost use Rattle.vms_near.specs.Snapshots.{LooksBoundSums, PeaksBoundSums, SnapshotsSumNearly, UnmovedAreExact};
ghost use Rattle.vms_near.specs.Snapshots.{UntouchedAreExact};

/// How far a snapshot may be from the true total that stood when it loaded the global value, whatever others make while
/// it is taken.
pub fn snapshots_sum_nearly()
    ensures sums { SnapshotsSumNearly }
    ensures unmoved { UnmovedAreExact }
    ensures untouched { UntouchedAreExact }
    ensures peaks { PeaksBoundSums }
    ensures looks { LooksBoundSums }
{}
