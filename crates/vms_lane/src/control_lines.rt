ghost use Rattle.std.specs.Prelude.{◌≡◌, [], ◌∷◌, Some, None};
ghost use Rattle.vms_world.specs.Common.{IsHeader, IsCpu, own, IsActOf, Control, event_call};
ghost use Rattle.vms_burial.specs.Common.{passes_of};
ghost use Rattle.vms_core.specs.Own.{CarriesNothing};
ghost use Rattle.vms_tables.specs.Common.{AreTables, world_of};
ghost use Rattle.vms_text.specs.declared.acts.Act.TheVariants.{Dead};
ghost use Rattle.vms_lane.specs.Controlling.{HasControlled, MayControl, SetsTwice};
ghost use Rattle.vms_lane.specs.Lines.{MakeAct};
ghost use Rattle.vms_lane.specs.Ready.{AreReadyToControl};

use crate::control_acts::run_control_act;
use crate::passes::control_passes_are_live;
use std::sync::Wait;
use vms_answers::{Answer, event_acts_tell_answers};
use vms_base::{CpuId, Header};
use vms_burial::{ControlPasses, bury};
use vms_calc::{Rule, Rules};
use vms_calls::control_passes_know_by_own_steps;
use vms_event_core::{EventCall, answers_are_read};
use vms_tables::Tables;
use vms_text::{Act, Lane};
use vms_words::Caller;
use vms_world::event_call;

/// Makes the act of a line of the control lane, whatever other lanes make meanwhile, and returns what the line answers
/// if it asks something. It may wait for the locks of percpu counters. The passes may make the next line then.
pub(crate) fn run_control_line<R: Wait, N: Rule, P: Rule>(
    rt: &R,
    tables: &Tables,
    header: &Header,
    rules: &Rules<N, P>,
    passes: &mut ControlPasses,
    act: Act,
) -> Option<Answer>
    requires header { IsHeader header.now }
    requires tables { AreTables header.now tables.now }
    requires passes { AreReadyToControl tables.now passes.old }
    requires act { IsActOf header.now Control act }
    requires may { MayControl tables.now.pages.facts (act ∷ []) passes.old.page.seen }
    ensures makes { MakeAct header.now (P.answers rules.now.pressure) (N.answers rules.now.normal)
        (world_of tables.now) Control act (passes_of passes.new) (passes_of passes.old) result }
    ensures controls { HasControlled tables.now.pages.facts act passes.new.page.seen passes.old.page.seen }
    ensures ready { AreReadyToControl tables.now passes.new }
{
    // What the pass knows of the CPUs stands, whatever others did meanwhile.
    control_passes_know_by_own_steps();
    passes.page.is_live();
    make_act(rt, tables, header, rules, passes, act)
}

/// Makes an act of the control lane by the call that it names.
fn make_act<R: Wait, N: Rule, P: Rule>(
    rt: &R,
    tables: &Tables,
    header: &Header,
    rules: &Rules<N, P>,
    passes: &mut ControlPasses,
    act: Act,
) -> Option<Answer>
    requires header { IsHeader header.now }
    requires tables { AreTables header.now tables.now }
    requires passes { AreReadyToControl tables.now passes.old }
    requires act { IsActOf header.now Control act }
    requires may { MayControl tables.now.pages.facts (act ∷ []) passes.old.page.seen }
    ensures makes { MakeAct header.now (P.answers rules.now.pressure) (N.answers rules.now.normal)
        (world_of tables.now) Control act (passes_of passes.new) (passes_of passes.old) result }
    ensures nothing { CarriesNothing tables.now.pages.facts.layout
        (own passes.new.page.seen passes.new.page.number) }
    ensures sets { SetsTwice tables.now.pages.facts passes.new.page.seen passes.old.page.seen }
{
    control_passes_are_live(passes);
    match event_call(Lane::Control, act) {
        Some(call) => make_event_call(rt, tables, header, rules, passes, act, call),
        None => run_control_act(&tables.pages, &mut passes.page, header, rules, act),
    }
}

/// Makes an act of the control lane that makes this call on the event counters: the sum of an event, or a burial.
fn make_event_call<R: Wait, N: Rule, P: Rule>(
    rt: &R,
    tables: &Tables,
    header: &Header,
    rules: &Rules<N, P>,
    passes: &mut ControlPasses,
    act: Act,
    call: EventCall,
) -> Option<Answer>
    requires header { IsHeader header.now }
    requires tables { AreTables header.now tables.now }
    requires passes { AreReadyToControl tables.now passes.old }
    requires act { IsActOf header.now Control act }
    requires call { event_call Control act ≡ Some call }
    requires may { MayControl tables.now.pages.facts (act ∷ []) passes.old.page.seen }
    ensures makes { MakeAct header.now (P.answers rules.now.pressure) (N.answers rules.now.normal)
        (world_of tables.now) Control act (passes_of passes.new) (passes_of passes.old) result }
    ensures nothing { CarriesNothing tables.now.pages.facts.layout
        (own passes.new.page.seen passes.new.page.number) }
    ensures sets { SetsTwice tables.now.pages.facts passes.new.page.seen passes.old.page.seen }
{
    control_passes_are_live(passes);
    event_acts_tell_answers();
    match call {
        EventCall::Sum(event) => {
            Some(Answer::Events(tables.events.all_events(&mut passes.event, event)))
        }
        EventCall::FoldDead(cpu) => {
            bury_dead(rt, tables, header, rules, passes, cpu);
            None
        }
        EventCall::Count(_, _) => None,
    }
}

/// Buries a dead CPU in the three tables.
fn bury_dead<R: Wait, N: Rule, P: Rule>(
    rt: &R,
    tables: &Tables,
    header: &Header,
    rules: &Rules<N, P>,
    passes: &mut ControlPasses,
    cpu: CpuId,
)
    requires header { IsHeader header.now }
    requires tables { AreTables header.now tables.now }
    requires passes { AreReadyToControl tables.now passes.old }
    requires cpu { IsCpu header.now.layout cpu.number }
    requires may { MayControl tables.now.pages.facts (Dead cpu ∷ []) passes.old.page.seen }
    ensures makes { MakeAct header.now (P.answers rules.now.pressure) (N.answers rules.now.normal)
        (world_of tables.now) Control (Dead cpu) (passes_of passes.new) (passes_of passes.old) None }
    ensures nothing { CarriesNothing tables.now.pages.facts.layout
        (own passes.new.page.seen passes.new.page.number) }
    ensures sets { SetsTwice tables.now.pages.facts passes.new.page.seen passes.old.page.seen }
{
    answers_are_read();
    bury(rt, tables, passes, header, rules, cpu);
}
