ghost use Rattle.std.specs.Prelude.{◌++◌};
ghost use Rattle.vms_pcpu_core.specs.Common.{History, IsLegal};
ghost use Rattle.vms_pcpu_core.specs.declared.steps.PcpuFacts.{PcpuFacts};
ghost use Rattle.vms_percpu_near.specs.Adds.{AddsCarryNothing};
ghost use Rattle.vms_percpu_near.specs.Counts.{CountIsFarOff, CountsAreNear};

/// The shared part of a counter is off from its true total by at most a batch for each CPU that is online or dead, at
/// every moment of a legal history in which nobody adds to a local part while it carries something of the counter.
pub fn counts_stay_near()
    ensures { (facts : PcpuFacts) (more h : History) → IsLegal facts (more ++ h) → AddsCarryNothing (more ++ h) →
        CountsAreNear facts h }
{}

/// It can be off by as much, and by more than a batch for each CPU that is online: a dead CPU hides its local part too.
pub fn count_bound_is_reached()
    ensures { CountIsFarOff }
{}
