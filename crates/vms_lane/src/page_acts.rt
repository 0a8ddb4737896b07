ghost use Rattle.std.specs.Prelude.{◌≡◌, length, None, Some};
ghost use Rattle.vms_calls.specs.PageCalls.{page_spent};
ghost use Rattle.vms_world.specs.Common.{IsHeader, counter_count, own, facts_of, IsActOf, spent_on_counter, Cpu};
ghost use Rattle.vms_world.specs.Common.{event_call, pcpu_call};
ghost use Rattle.vms_core.specs.Own.{CarriesNothing};
ghost use Rattle.vms_seats.specs.Common.{IsFrom};
ghost use Rattle.vms_lane.specs.PageCalls.{HasCalled, IsCallOfCpu, IsFoldOrLook};
ghost use Rattle.vms_lane.specs.Spending.{HasGrown, HasRoom};
ghost use Rattle.vms_lane.specs.TableActs.{MakesOnPages};

use crate::amounts::change;
use vms_answers::{Answer, page_told};
use vms_base::{CpuId, Header};
use vms_calc::{Rule, Rules};
use vms_calls::{PageAnswer, PageCall};
use vms_count::fold;
use vms_look::{place_value, snapshot, system_value, watermark_ok};
use vms_text::{Act, Lane};
use vms_words::{Caller, CpuPass, PageTable};
use vms_world::page_call;

/// Makes an act of a CPU's lane on the page counters, by the call that it makes there.
pub(crate) fn run_page_act<N: Rule, P: Rule>(
    table: &PageTable,
    pass: &mut CpuPass,
    header: &Header,
    rules: &Rules<N, P>,
    cpu: CpuId,
    act: Act,
) -> Option<Answer>
    requires header { IsHeader header.now }
    requires table { IsFrom pass.old.pass table.now }
    requires facts { table.now.facts ≡ facts_of header.now table.now.facts.base }
    requires owner { pass.old.pass.cpu ≡ Some cpu }
    requires nothing { CarriesNothing table.now.facts.layout (own pass.old.pass.seen pass.old.pass.number) }
    requires one_each { length pass.old.volume ≡ counter_count table.now.facts.layout }
    requires act { IsActOf header.now (Cpu cpu) act }
    requires no_events { event_call (Cpu cpu) act ≡ None }
    requires no_call { pcpu_call (Cpu cpu) act ≡ None }
    requires room { HasRoom (λ k. spent_on_counter k act) pass.old.volume }
    ensures made { MakesOnPages header.now (P.answers rules.now.pressure) (N.answers rules.now.normal)
        table.now.facts.base (Cpu cpu) act pass.new.pass pass.old.pass result }
    ensures grown { HasGrown (λ k. spent_on_counter k act) pass.new.volume pass.old.volume }
{
    match page_call(Lane::Cpu(cpu), act) {
        Some(call) => page_told(call_own(table, pass, header, rules, call)),
        None => None,
    }
}

/// Makes a call of a pass that owns a CPU, and answers it.
fn call_own<N: Rule, P: Rule>(
    table: &PageTable,
    pass: &mut CpuPass,
    header: &Header,
    rules: &Rules<N, P>,
    call: PageCall,
) -> PageAnswer
    requires table { IsFrom pass.old.pass table.now }
    requires facts { table.now.facts ≡ facts_of header.now table.now.facts.base }
    requires nothing { CarriesNothing table.now.facts.layout (own pass.old.pass.seen pass.old.pass.number) }
    requires one_each { length pass.old.volume ≡ counter_count table.now.facts.layout }
    requires call { IsCallOfCpu header.now call }
    requires room { HasRoom (page_spent call) pass.old.volume }
    ensures made { HasCalled header.now (P.answers rules.now.pressure) (N.answers rules.now.normal)
        table.now.facts.base call pass.new.pass pass.old.pass result }
    ensures grown { HasGrown (page_spent call) pass.new.volume pass.old.volume }
{
    match call {
        PageCall::Change(counter, delta, mode) => {
            change(table, pass, counter, delta, mode);
            PageAnswer::Done
        }
        _ => fold_or_look(table, pass, header, rules, call),
    }
}

/// Makes a call that every pass may make, and answers it: it folds a CPU, tests a watermark or looks at a value.
pub(crate) fn fold_or_look<C: Caller, N: Rule, P: Rule>(
    table: &PageTable,
    pass: &mut C,
    header: &Header,
    rules: &Rules<N, P>,
    call: PageCall,
) -> PageAnswer
    requires table { IsFrom (C.pass pass.old) table.now }
    requires facts { table.now.facts ≡ facts_of header.now table.now.facts.base }
    requires nothing { CarriesNothing table.now.facts.layout (own (C.pass pass.old).seen (C.pass pass.old).number) }
    requires call { IsFoldOrLook header.now call }
    ensures made { HasCalled header.now (P.answers rules.now.pressure) (N.answers rules.now.normal)
        table.now.facts.base call (C.pass pass.new) (C.pass pass.old) result }
    ensures volume { C.volume pass.new ≡ C.volume pass.old }
{
    rules.tells();
    match call {
        PageCall::Fold(cpu) => {
            fold(table, pass, cpu);
            PageAnswer::Done
        }
        PageCall::Test(zone, mark, most) => {
            PageAnswer::Tested(watermark_ok(table, pass, header, zone, mark, most))
        }
        PageCall::Value(counter) => PageAnswer::Value(place_value(table, pass, counter)),
        PageCall::Snapshot(counter) => PageAnswer::Snapshot(snapshot(table, pass, counter)),
        PageCall::System(item) => PageAnswer::System(system_value(table, pass, item)),
        _ => PageAnswer::Done,
    }
}
