ghost use Rattle.std.specs.Prelude.{◌≡◌, ◌+◌, ◌≤◌, None};
ghost use Rattle.vms_world.specs.Common.{IsHeader, facts_of, most_sets, own, IsActOf, Control, event_call};
ghost use Rattle.vms_core.specs.Own.{CarriesNothing};
ghost use Rattle.vms_core.specs.Pages.{state_after};
ghost use Rattle.vms_seats.specs.Common.{IsFrom};
ghost use Rattle.vms_words.specs.Common.{largest_sets};
ghost use Rattle.vms_lane.specs.Controlling.{SetsTwice};
ghost use Rattle.vms_lane.specs.PageCalls.{HasCalled, IsCallOfControl};
ghost use Rattle.vms_lane.specs.TableActs.{MakesOnPages};

use crate::page_acts::fold_or_look;
use vms_answers::{Answer, page_told};
use vms_base::Header;
use vms_calc::{Rule, Rules};
use vms_calls::{PageAnswer, PageCall};
use vms_control::{set_normal, set_pressure};
use vms_kswapd::kswapd_turn;
use vms_text::{Act, Lane};
use vms_words::{Caller, ControlPass, PageTable};
use vms_world::page_call;

/// Makes an act of the control lane on the page counters, by the call that it makes there.
pub(crate) fn run_control_act<N: Rule, P: Rule>(
    table: &PageTable,
    pass: &mut ControlPass,
    header: &Header,
    rules: &Rules<N, P>,
    act: Act,
) -> Option<Answer>
    requires header { IsHeader header.now }
    requires table { IsFrom pass.old table.now }
    requires facts { table.now.facts ≡ facts_of header.now table.now.facts.base }
    requires owner { pass.old.cpu ≡ None }
    requires nothing { CarriesNothing table.now.facts.layout (own pass.old.seen pass.old.number) }
    requires act { IsActOf header.now Control act }
    requires no_events { event_call Control act ≡ None }
    requires room { 2 + largest_sets table.now.facts.layout (state_after table.now.facts pass.old.seen) ≤ most_sets }
    ensures made { MakesOnPages header.now (P.answers rules.now.pressure) (N.answers rules.now.normal)
        table.now.facts.base Control act pass.new pass.old result }
    ensures sets { SetsTwice table.now.facts pass.new.seen pass.old.seen }
{
    match page_call(Lane::Control, act) {
        Some(call) => page_told(rate_or_look(table, pass, header, rules, call)),
        None => None,
    }
}

/// Makes a call of the control pass, and answers it: it sets thresholds and marks, or makes what every pass may make.
fn rate_or_look<N: Rule, P: Rule>(
    table: &PageTable,
    pass: &mut ControlPass,
    header: &Header,
    rules: &Rules<N, P>,
    call: PageCall,
) -> PageAnswer
    requires header { IsHeader header.now }
    requires table { IsFrom pass.old table.now }
    requires facts { table.now.facts ≡ facts_of header.now table.now.facts.base }
    requires owner { pass.old.cpu ≡ None }
    requires nothing { CarriesNothing table.now.facts.layout (own pass.old.seen pass.old.number) }
    requires call { IsCallOfControl header.now call }
    requires room { 2 + largest_sets table.now.facts.layout (state_after table.now.facts pass.old.seen) ≤ most_sets }
    ensures made { HasCalled header.now (P.answers rules.now.pressure) (N.answers rules.now.normal)
        table.now.facts.base call pass.new pass.old result }
    ensures sets { SetsTwice table.now.facts pass.new.seen pass.old.seen }
{
    pass.is_live();
    match call {
        PageCall::SetPressure(node) => {
            set_pressure(table, pass, header, rules, node);
            PageAnswer::Done
        }
        PageCall::SetNormal(node) => {
            set_normal(table, pass, header, rules, node);
            PageAnswer::Done
        }
        PageCall::Turn(node, order, most) => {
            PageAnswer::Balanced(kswapd_turn(table, pass, header, rules, node, order, most))
        }
        _ => fold_or_look(table, pass, header, rules, call),
    }
}
