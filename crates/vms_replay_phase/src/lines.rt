ghost use Rattle.std.specs.Prelude.{◌≡◌, Some, None};
ghost use Rattle.vms_world.specs.Common.{IsHeader, Cpu, event_call, page_call};
ghost use Rattle.vms_replay_phase.specs.Lines.{MakesLine, MayMakeLine};

use vms_answers::{Answer, event_told, page_told, pcpu_told};
use vms_base::{CpuId, Header};
use vms_calc::{Rule, Rules};
use vms_calls::PageCall;
use vms_plain_lines::PlainTables;
use vms_text::{Act, Lane};
use vms_world::{event_call, page_call, pcpu_call};

/// Makes the act of a line. Returns what the line answers, if it asks something.
pub(crate) fn make_line<N: Rule, P: Rule>(
    tables: &mut PlainTables,
    rules: &Rules<N, P>,
    header: &Header,
    lane: Lane,
    act: Act,
) -> Option<Answer>
    requires header { IsHeader header.now }
    requires may { MayMakeLine header.now lane act tables.old }
    ensures { MakesLine header.now (P.answers rules.now.pressure) (N.answers rules.now.normal) lane act tables.old
        tables.new result }
{
    match page_call(lane, act) {
        Some(call) => make_page_call(tables, rules, header, lane, act, call),
        None => make_elsewhere(tables, rules, header, lane, act),
    }
}

/// Makes an act that makes this call on the page counters: one on them alone, or a burial.
fn make_page_call<N: Rule, P: Rule>(
    tables: &mut PlainTables,
    rules: &Rules<N, P>,
    header: &Header,
    lane: Lane,
    act: Act,
    call: PageCall,
) -> Option<Answer>
    requires header { IsHeader header.now }
    requires may { MayMakeLine header.now lane act tables.old }
    requires makes { page_call lane act ≡ Some call }
    ensures { MakesLine header.now (P.answers rules.now.pressure) (N.answers rules.now.normal) lane act tables.old
        tables.new result }
{
    match call {
        PageCall::Bury(cpu) => {
            tables.bury(rules, header, cpu);
            None
        }
        _ => page_told(tables.call_pages(rules, header, lane, call)),
    }
}

/// Makes an act that makes no call on the page counters.
fn make_elsewhere<N: Rule, P: Rule>(
    tables: &mut PlainTables,
    rules: &Rules<N, P>,
    header: &Header,
    lane: Lane,
    act: Act,
) -> Option<Answer>
    requires header { IsHeader header.now }
    requires no_pages { page_call lane act ≡ None }
    requires may { MayMakeLine header.now lane act tables.old }
    ensures { MakesLine header.now (P.answers rules.now.pressure) (N.answers rules.now.normal) lane act tables.old
        tables.new result }
{
    match event_call(lane, act) {
        Some(call) => event_told(tables.call_events(rules, lane, call)),
        None => match lane {
            Lane::Cpu(cpu) => make_pcpu_call(tables, rules, header, cpu, act),
            Lane::Control => None,
        },
    }
}

/// Makes an act of a CPU's lane that makes a call on the percpu counters.
fn make_pcpu_call<N: Rule, P: Rule>(
    tables: &mut PlainTables,
    rules: &Rules<N, P>,
    header: &Header,
    cpu: CpuId,
    act: Act,
) -> Option<Answer>
    requires header { IsHeader header.now }
    requires no_pages { page_call (Cpu cpu) act ≡ None }
    requires no_events { event_call (Cpu cpu) act ≡ None }
    requires may { MayMakeLine header.now (Cpu cpu) act tables.old }
    ensures { MakesLine header.now (P.answers rules.now.pressure) (N.answers rules.now.normal) (Cpu cpu) act tables.old
        tables.new result }
{
    match pcpu_call(Lane::Cpu(cpu), act) {
        Some(call) => pcpu_told(tables.make_pcpu_call(rules, cpu, call)),
        None => None,
    }
}
