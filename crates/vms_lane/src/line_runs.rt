ghost use Rattle.std.specs.Prelude.{◌≡◌};
ghost use Rattle.vms_world.specs.Common.{IsHeader, IsActOf};
ghost use Rattle.vms_tables.specs.Common.{AreTables, world_of};
ghost use Rattle.vms_lane.specs.LanePasses.{AreLeftBy, AreReadyFor, MayMakeAct, passes_in};
ghost use Rattle.vms_lane.specs.Lines.{MakeAct};

use crate::control_lines::run_control_line;
use crate::cpu_lines::run_cpu_line;
use crate::passes::LanePasses;
use std::sync::Wait;
use vms_answers::Answer;
use vms_base::Header;
use vms_calc::{Rule, Rules};
use vms_tables::Tables;
use vms_text::{Act, Lane};

/// Makes the act of a line of a lane, whatever other lanes make meanwhile, and returns what the line answers if it asks
/// something. It may wait for the locks of percpu counters. The passes may make the next line then.
pub fn run_line<R: Wait, N: Rule, P: Rule>(
    rt: &R,
    tables: &Tables,
    header: &Header,
    rules: &Rules<N, P>,
    passes: &mut LanePasses,
    lane: Lane,
    act: Act,
) -> Option<Answer>
    requires header { IsHeader header.now }
    requires tables { AreTables header.now tables.now }
    requires passes { AreReadyFor tables.now lane passes.old }
    requires act { IsActOf header.now lane act }
    requires may { MayMakeAct tables.now act passes.old }
    ensures makes { MakeAct header.now (P.answers rules.now.pressure) (N.answers rules.now.normal)
        (world_of tables.now) lane act (passes_in passes.new) (passes_in passes.old) result }
    ensures leaves { AreLeftBy tables.now act passes.new passes.old }
    ensures ready { AreReadyFor tables.now lane passes.new }
{
    let _ = lane;
    match passes {
        LanePasses::Cpu(passes) => {
            let cpu = passes.page.cpu();
            run_cpu_line(rt, tables, header, rules, passes, cpu, act)
        }
        LanePasses::Control(passes) => run_control_line(rt, tables, header, rules, passes, act),
    }
}
