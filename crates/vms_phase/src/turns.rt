ghost use Rattle.std.specs.Prelude.{◌≡◌, ℕ, suc, ◌<◌, List, [], ◌∷◌, ◌++◌, false, length};
ghost use Rattle.vms_world.specs.Common.{CpuId, Facts, Step, pages, EventFacts, EventStep, events, own, IsFree};
ghost use Rattle.vms_world.specs.Common.{lives_in, PcpuFacts, PcpuStep, percpu, Lane, Cpu, is_among, owner_of};
ghost use Rattle.vms_core.specs.Totals as page_totals;
ghost use Rattle.vms_event_core.specs.Totals as event_totals;
ghost use Rattle.vms_file_order.specs.Common.{MayOwnEach, StandOnce, closing_of, opening_of, event_passes, page_passes};
ghost use Rattle.vms_file_order.specs.Common.{pcpu_passes};
ghost use Rattle.vms_pcpu_core.specs.Totals as pcpu_totals;
ghost use Rattle.vms_phase.specs.BegunLanes.{HasBegunLanes, HasEndedLanes, IsFresh, HasAllSteps};
ghost use Rattle.vms_seats.specs.Common.{HasBegun, HasEnded, Pass};

use vms_file_order::LineTable;

/// The main pass of a table begins the passes of lanes one after another: each is the next in number and has made no
/// step, and what the pass of a further lane is to own is free.
pub fn lanes_begin_in_turn<T: LineTable>()
    ensures begun { (lanes : List Lane) (lane : Lane) (new old pass : Pass T.Facts T.Step) →
        HasBegunLanes T.machine T.passes lanes old →
        HasBegun T.machine T.passes.begin new old pass (owner_of lane) →
        HasBegunLanes T.machine T.passes (lanes ++ lane ∷ []) new }
    ensures fresh { (lanes : List Lane) (lane : Lane) (new old pass : Pass T.Facts T.Step) →
        HasBegunLanes T.machine T.passes lanes old →
        HasBegun T.machine T.passes.begin new old pass (owner_of lane) → IsFresh (suc (length lanes)) pass }
    ensures free { (lanes : List Lane) (lane : Lane) (main : Pass T.Facts T.Step) → StandOnce lanes →
        is_among lane lanes ≡ false → HasBegunLanes T.machine T.passes lanes main →
        IsFree T.machine.role main.seen (owner_of lane) }
{}

/// It ends them one after another, in the same order. What a pass that ended had made is whole, then and later. Once
/// all have ended, its own events are those of a phase of these lanes, and no pass lives.
pub fn lanes_end_in_turn<T: LineTable>()
    ensures none { (lanes : List Lane) (main : Pass T.Facts T.Step) →
        HasBegunLanes T.machine T.passes lanes main → HasEndedLanes T.machine T.passes lanes 0 main }
    ensures ended { (lanes : List Lane) (n : ℕ) (new old pass : Pass T.Facts T.Step) → n < length lanes →
        HasEndedLanes T.machine T.passes lanes n old → pass.number ≡ suc n →
        HasEnded T.machine T.passes.end new old pass → HasEndedLanes T.machine T.passes lanes (suc n) new }
    ensures whole { (lanes : List Lane) (n : ℕ) (new old first last : Pass T.Facts T.Step) → n < length lanes →
        HasEndedLanes T.machine T.passes lanes n old → IsFresh (suc n) first → last.number ≡ suc n →
        HasEnded T.machine T.passes.end new old last → HasAllSteps (suc n) first last new.seen }
    ensures still { (lanes : List Lane) (n i : ℕ) (new old pass first last : Pass T.Facts T.Step) →
        n < length lanes → HasEndedLanes T.machine T.passes lanes n old → pass.number ≡ suc n →
        HasEnded T.machine T.passes.end new old pass → i < n →
        HasAllSteps (suc i) first last old.seen →
        HasAllSteps (suc i) first last new.seen }
    ensures all { (lanes : List Lane) (main : Pass T.Facts T.Step) →
        HasEndedLanes T.machine T.passes lanes (length lanes) main →
        own main.seen 0 ≡ closing_of T.passes lanes (opening_of T.passes lanes) }
    ensures over { (lanes : List Lane) (main : Pass T.Facts T.Step) → T.machine.CanBegin main.facts →
        MayOwnEach T.machine main.facts lanes → StandOnce lanes →
        HasEndedLanes T.machine T.passes lanes (length lanes) main →
        (q : ℕ) → lives_in T.machine.role main.seen q ≡ false }
{
    crate::lanes_begin_and_end::<T>();
    crate::whole_lanes::<T>();
}

/// While a CPU's lane has no pass, the CPU spends nothing.
pub fn fresh_cpus_have_spent_nothing()
    ensures pages { (lanes : List Lane) (c : CpuId) (main : Pass Facts Step) → StandOnce lanes →
        is_among (Cpu c) lanes ≡ false → HasBegunLanes pages page_passes lanes main →
        (k : ℕ) → page_totals.spent main.seen c.number k ≡ 0 }
    ensures events { (lanes : List Lane) (c : CpuId) (main : Pass EventFacts EventStep) → StandOnce lanes →
        is_among (Cpu c) lanes ≡ false → HasBegunLanes events event_passes lanes main →
        (k : ℕ) → event_totals.spent main.seen c.number k ≡ 0 }
    ensures counters { (lanes : List Lane) (c : CpuId) (main : Pass PcpuFacts PcpuStep) → StandOnce lanes →
        is_among (Cpu c) lanes ≡ false → HasBegunLanes percpu pcpu_passes lanes main →
        (j : ℕ) → pcpu_totals.spent main.seen c.number j ≡ 0 }
{}
