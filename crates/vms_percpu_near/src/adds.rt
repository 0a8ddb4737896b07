ghost use Rattle.std.specs.Prelude.{ℕ, List, Option};
ghost use Rattle.vms_history.specs.Common.{CpuId, after, own};
ghost use Rattle.vms_history.specs.declared.events.Event.{Event};
ghost use Rattle.vms_pcpu_core.specs.Common.{History, IsIdle, IsPcpuCall};
ghost use Rattle.vms_pcpu_core.specs.declared.answers.PcpuAnswer.{PcpuAnswer};
ghost use Rattle.vms_pcpu_core.specs.declared.pcpu_calls.PcpuCall.{PcpuCall};
ghost use Rattle.vms_pcpu_core.specs.declared.steps.PcpuFacts.{PcpuFacts};
ghost use Rattle.vms_pcpu_core.specs.declared.steps.PcpuStep.{PcpuStep};
ghost use Rattle.vms_percpu_near.specs.Adds.{AddsCarryNothing, OwnAddsCarryNothing};

/// A caller that makes calls carries nothing of a counter when it adds to its own local part of it. A history in which
/// that holds of each caller's own events is one in which every such addition is made so.
pub fn calls_add_carrying_nothing()
    ensures calls { (facts : PcpuFacts) (who : Option CpuId) (call : PcpuCall) (steps : List PcpuStep)
        (answer : PcpuAnswer) → IsPcpuCall facts who call steps answer → (p : ℕ) (mine : List (Event PcpuStep)) →
        IsIdle mine → OwnAddsCarryNothing mine → OwnAddsCarryNothing (after p steps mine) }
    ensures callers { (h : History) → ((p : ℕ) → OwnAddsCarryNothing (own h p)) → AddsCarryNothing h }
{}
