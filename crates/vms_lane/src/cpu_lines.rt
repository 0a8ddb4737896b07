ghost use Rattle.vms_world.specs.Common.{IsHeader, IsActOf, Cpu};
ghost use Rattle.vms_tables.specs.Common.{passes_of, AreTables, world_of};
ghost use Rattle.vms_lane.specs.Lines.{MakeAct};
ghost use Rattle.vms_lane.specs.Ready.{AreReady};
ghost use Rattle.vms_lane.specs.Spending.{HaveRoom, HaveSpent, spending_of};

use crate::page_acts::run_page_act;
use std::sync::Wait;
use vms_answers::{Answer, event_acts_tell_answers, event_told, pcpu_told};
use vms_base::{CpuId, Header};
use vms_calc::{Rule, Rules};
use vms_tables::{CpuPasses, Tables};
use vms_text::{Act, Lane};
use vms_world::{event_call, pcpu_call};

/// Makes the act of a line of a CPU's lane, whatever other lanes make meanwhile, and returns what the line answers if
/// it asks something. It may wait for the lock of a percpu counter. The passes may make the next line then.
pub(crate) fn run_cpu_line<R: Wait, N: Rule, P: Rule>(
    rt: &R,
    tables: &Tables,
    header: &Header,
    rules: &Rules<N, P>,
    passes: &mut CpuPasses,
    cpu: CpuId,
    act: Act,
) -> Option<Answer>
    requires header { IsHeader header.now }
    requires tables { AreTables header.now tables.now }
    requires passes { AreReady tables.now cpu passes.old }
    requires act { IsActOf header.now (Cpu cpu) act }
    requires room { HaveRoom (spending_of act) passes.old }
    ensures makes { MakeAct header.now (P.answers rules.now.pressure) (N.answers rules.now.normal)
        (world_of tables.now) (Cpu cpu) act (passes_of passes.new) (passes_of passes.old) result }
    ensures spends { HaveSpent (spending_of act) passes.new passes.old }
    ensures ready { AreReady tables.now cpu passes.new }
{
    passes.are_live();
    event_acts_tell_answers();
    match event_call(Lane::Cpu(cpu), act) {
        Some(call) => event_told(tables.events.call(&mut passes.event, call)),
        None => match pcpu_call(Lane::Cpu(cpu), act) {
            Some(call) => pcpu_told(tables.counters.call(rt, &mut passes.pcpu, call)),
            None => run_page_act(&tables.pages, &mut passes.page, header, rules, cpu, act),
        },
    }
}
