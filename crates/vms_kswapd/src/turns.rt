ghost use Rattle.std.specs.Prelude.{◌≡◌, ◌<◌, ◌≤◌, suc, List};
ghost use Rattle.vms_calls.specs.Common.{IsHeader, IsNode, IsTurn, SetsAfterYes, Step, CarriesNothing, pages};
ghost use Rattle.vms_calls.specs.Common.{state_after, most_sets, own};
ghost use Rattle.vms_kswapd.specs.LeftThresholds.{LeavesRule};
ghost use Rattle.vms_kswapd.specs.Passing.{NamesPassed};
ghost use Rattle.vms_seats.specs.Common.{IsFrom, Made};
ghost use Rattle.vms_words.specs.Common.{largest_sets};

use crate::balances::balanced;
use vms_base::{Header, PlaceId};
use vms_calc::{Rule, Rules};
use vms_calls::{Balance, control_passes_know_by_own_steps};
use vms_control::{set_normal, set_pressure};
use vms_words::{Caller, ControlPass, PageTable};

/// Takes a turn of kswapd on a node: it sets pressure thresholds, tests whether the node is balanced for an order and
/// a highest zone index, and sets normal thresholds if it is (`kswapd_try_to_sleep` of mm/vmscan.c).
///
/// After a yes the thresholds of the CPUs that were found online are those of the normal rule, after a no those of the
/// pressure rule, in each zone of the node whose mark the last call on thresholds found not 0. A pressure call may
/// bring a mark down to 0; the normal call leaves the zone then, and pressure thresholds stay in it after a yes.
pub fn kswapd_turn<N: Rule, P: Rule>(
    table: &PageTable,
    pass: &mut ControlPass,
    header: &Header,
    rules: &Rules<N, P>,
    node: PlaceId,
    order: u32,
    most: u32,
) -> Balance
    requires table { IsFrom pass.old table.now }
    requires header { IsHeader header.now }
    requires layout { header.now.layout ≡ table.now.facts.layout }
    requires sizes { header.now.sizes ≡ table.now.facts.sizes }
    requires node { IsNode header.now.layout node.number }
    requires order { order ≤ 10 }
    requires most { most ≤ 3 }
    requires room { suc (largest_sets table.now.facts.layout (state_after table.now.facts pass.old.seen)) < most_sets }
    ensures made { (steps : List Step)
        × (turn : IsTurn header.now table.now.facts.base (P.answers rules.now.pressure) (N.answers rules.now.normal)
        node order most pass.old.number pass.old.seen steps result)
        × Made pages pass.new pass.old steps
        × LeavesRule header.now table.now.facts.base (P.answers rules.now.pressure) (N.answers rules.now.normal) node
        order most pass.old.number pass.old.seen steps result turn pass.new.seen }
    ensures passed { NamesPassed header.now pass.new pass.old node order most result }
    ensures carries { CarriesNothing table.now.facts.layout (own pass.old.seen pass.old.number) →
        CarriesNothing table.now.facts.layout (own pass.new.seen pass.new.number) }
    ensures sets { largest_sets table.now.facts.layout (state_after table.now.facts pass.new.seen)
        ≤ suc (suc (largest_sets table.now.facts.layout (state_after table.now.facts pass.old.seen))) }
{
    // What a pass computed from peaks stands, whatever others did meanwhile.
    control_passes_know_by_own_steps();
    set_pressure(table, pass, header, rules, node);
    let balance = balanced(table, pass, header, node, order, most);
    settle(table, pass, header, rules, node, balance);
    balance
}

/// Sets normal thresholds again if the node is balanced.
fn settle<N: Rule, P: Rule>(
    table: &PageTable,
    pass: &mut ControlPass,
    header: &Header,
    rules: &Rules<N, P>,
    node: PlaceId,
    balance: Balance,
)
    requires table { IsFrom pass.old table.now }
    requires sizes { header.now.sizes ≡ table.now.facts.sizes }
    requires node { IsNode table.now.facts.layout node.number }
    requires room { largest_sets table.now.facts.layout (state_after table.now.facts pass.old.seen) < most_sets }
    ensures made { (steps : List Step)
        × SetsAfterYes table.now.facts (N.answers rules.now.normal) node pass.old.number
        balance pass.old.seen steps × Made pages pass.new pass.old steps }
    ensures carries { CarriesNothing table.now.facts.layout (own pass.old.seen pass.old.number) →
        CarriesNothing table.now.facts.layout (own pass.new.seen pass.new.number) }
    ensures sets { largest_sets table.now.facts.layout (state_after table.now.facts pass.new.seen)
        ≤ suc (largest_sets table.now.facts.layout (state_after table.now.facts pass.old.seen)) }
{
    pass.is_live();
    match balance {
        Balance::Yes(_, _) => set_normal(table, pass, header, rules, node),
        Balance::No => {}
    }
}
