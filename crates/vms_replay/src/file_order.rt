ghost use Rattle.std.specs.Prelude.{IfOk};
ghost use Rattle.vms_world.specs.Common.{IsHeader, normal_threshold_of, pressure_threshold_of, IsThresholdRule, Fits};
ghost use Rattle.vms_world.specs.Common.{Start};
ghost use Rattle.vms_file_order.specs.Common.{IsStartOf};
ghost use Rattle.vms_replay_phase.specs.Common.{IsReplayed};
ghost use Rattle.vms_replay.specs.KernelRules.{GoesBy, normal_rule, pressure_rule};
ghost use Rattle.vms_replay.specs.Printing.{Prints};

use crate::{Engine, KernelRules, WaitPrinter};
use std::alloc::Global;
use vms_base::{Header, Memory, ZoneSize};
use vms_calc::{Rule, Rules, normal_threshold, pressure_threshold};
use vms_file_order::file_order_makes_phases;
use vms_replay_phase::replay_phase;
use vms_script::PhaseScript;
use vms_world::World;

/// The engine that makes each phase in file order, as one thread does. It keeps no histories.
#[derive(Debug, Drop)]
pub struct FileOrder;

impl Engine for FileOrder {
    ghost use Rattle.std.specs.Prelude.{None};
    ghost use Rattle.vms_replay.specs.FileOrders.{makes_in_order};

    ghost Makes = { makes_in_order };

    ghost made = { λ _. None };

    fn makes_lines() {
        file_order_makes_phases::<KernelRules>();
    }

    fn run_phase(
        &mut self,
        alloc: Global,
        world: World,
        header: &Header,
        script: &PhaseScript,
        printer: &mut WaitPrinter,
    ) -> Result<World, Memory> {
        replay_by(
            alloc,
            world,
            header,
            script,
            |size: &ZoneSize, online: u32| normal_threshold(size, online),
            |size: &ZoneSize, online: u32| pressure_threshold(size, online),
            printer,
        )
    }
}

/// Replays a phase under the thresholds of these rules, which are the kernel's.
fn replay_by<N: Rule, P: Rule>(
    alloc: Global,
    world: World,
    header: &Header,
    script: &PhaseScript,
    normal: N,
    pressure: P,
    printer: &mut WaitPrinter,
) -> Result<World, Memory>
    requires header { IsHeader header.now }
    requires start { (start : Start) × IsStartOf header.now start world × Fits header.now start script.now }
    requires normal { IsThresholdRule (N.accepts normal) (N.answers normal) }
    requires pressure { IsThresholdRule (P.accepts pressure) (P.answers pressure) }
    requires exact_normal { GoesBy normal_threshold_of (N.answers normal) }
    requires exact_pressure { GoesBy pressure_threshold_of (P.answers pressure) }
    ensures { IfOk result (λ left. IsReplayed header.now pressure_rule normal_rule world script.now left
        (λ told. Prints header.now printer.old told printer.new)) }
{
    let rules = Rules::make(normal, pressure);
    replay_phase(alloc, world, header, script, &rules, printer)
}
