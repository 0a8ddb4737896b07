ghost use Rattle.std.specs.Prelude.{◌≡◌, List, [], Option, None, MatchResult};
ghost use Rattle.vms_world.specs.Common.{Header, IsHeader, Fits, Start, Item, TableHistories};
ghost use Rattle.vms_file_order.specs.Common.{MakeInAnyOrder, IsStartOf};
ghost use Rattle.vms_world.specs.declared.worlds.World.{World};
ghost use Rattle.vms_replay.specs.Engines.{EngineMakesPhase};
ghost use Rattle.vms_replay.specs.KernelRules.{normal_rule, pressure_rule};
ghost use Rattle.vms_replay.specs.MadePhases.{PastPhase};
ghost use Rattle.vms_replay.specs.Printing.{Prints};

use crate::WaitPrinter;
use std::alloc::Global;
use vms_base::{Header, Memory};
use vms_calls::ThresholdRules;
use vms_script::PhaseScript;
use vms_world::World;

/// What makes the phases of a trace.
pub trait Engine {
    // Which histories a phase of these lines from a world may have.
    ghost Makes: { Header → World → List Item → TableHistories → Type 0 };

    // The phases that were made so far, or none where the engine keeps none.
    ghost made: { Self → Option (List PastPhase) };

    /// Histories that a phase may have make its lines, by the kernel's rules of thresholds.
    fn makes_lines()
        ensures { (header : Header) (w : World) (items : List Item) (hs : TableHistories) →
            Makes header w items hs →
            MakeInAnyOrder header pressure_rule normal_rule w items hs };

    /// Makes the lines of a phase from a world, and hands what they answer, in their order, to what prints it. Returns
    /// the world that the phase leaves.
    fn run_phase(
        &mut self,
        alloc: Global,
        world: World,
        header: &Header,
        script: &PhaseScript,
        printer: &mut WaitPrinter,
    ) -> Result<World, Memory>
        requires header { IsHeader header.now }
        requires start { (start : Start) × IsStartOf header.now start world × Fits header.now start script.now }
        ensures { MatchResult result
            (EngineMakesPhase Makes header.now world script.now (made self.old) (made self.new)
            (λ told. Prints header.now printer.old told printer.new))
            (λ _. made self.new ≡ made self.old) };
}

/// The kernel's rules of thresholds, `calculate_pressure_threshold` and `calculate_normal_threshold` of mm/vmstat.c.
#[derive(Debug, Drop)]
pub struct KernelRules;

impl ThresholdRules for KernelRules {
    ghost pressure = { pressure_rule };

    ghost normal = { normal_rule };
}
