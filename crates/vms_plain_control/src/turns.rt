ghost use Rattle.std.specs.Prelude.{◌≡◌, ℕ, ◌-◌, ◌^◌, ◌≤◌, List};
ghost use Rattle.vms_calls.specs.Common.{HasOnline, IsHeader, IsNode, State, HasShape, most_sets, facts_of, IsTurn};
ghost use Rattle.vms_calls.specs.Common.{SetsAfterYes, ByPressure};
ghost use Rattle.vms_plain_pages.specs.Common.{IsSmallState, balance_at};
ghost use Rattle.vms_plain_control.specs.Control.{ControlMakes};
ghost use Rattle.vms_plain_control.specs.KnownPeaks.{HasAllPeaks};
ghost use Rattle.vms_plain_control.specs.RatedPlaces.{RatesPlaces, SettlesPlaces};
ghost use Rattle.vms_plain_control.specs.SetCounts.{SetAtMost, SetsEachAtMost, SetsOnly};

use crate::{Peaks, set_normal, set_pressure};
use vms_base::{Header, PlaceId};
use vms_calc::{Rule, Rules};
use vms_calls::{Balance, looks_may_be_made};
use vms_core::Plain;
use vms_plain_pages::balance_test;

/// Takes a turn of kswapd on a node: it sets pressure thresholds, tests whether the node is balanced for an order and
/// a highest zone index, and sets normal thresholds if it is (`kswapd_try_to_sleep` of mm/vmscan.c).
pub fn turn<N: Rule, P: Rule>(
    pages: &mut Plain,
    peaks: &mut Peaks,
    header: &Header,
    rules: &Rules<N, P>,
    node: PlaceId,
    order: u32,
    most: u32,
) -> Balance
    requires header { IsHeader header.now }
    requires numbers { IsSmallState header.now.layout (2 ^ 61) pages.old }
    requires full { HasAllPeaks header.now.layout peaks.old }
    requires some_online { HasOnline header.now.layout pages.old.cpu }
    requires room { SetAtMost header.now.layout (most_sets - 2) pages.old }
    requires node { IsNode header.now.layout node.number }
    requires order { order ≤ 10 }
    requires most { most ≤ 3 }
    ensures makes { ControlMakes header.now
        (λ base p h steps. IsTurn header.now base (P.answers rules.now.pressure)
        (N.answers rules.now.normal) node order most p h steps result)
        pages.old peaks.old pages.new peaks.new }
    ensures answer { (pressed : State) × SetsOnly pages.old pressed
        × (result ≡ balance_at header.now node order most pressed) }
    ensures places { (pressed : State) × (known : List ℕ) × SetsOnly pages.old pressed
        × RatesPlaces header.now (ByPressure (P.answers rules.now.pressure) (N.answers rules.now.normal)) node
        pages.old peaks.old pressed known
        × (result ≡ balance_at header.now node order most pressed)
        × SettlesPlaces header.now (N.answers rules.now.normal) node result pressed known pages.new peaks.new }
    ensures rest { SetsOnly pages.old pages.new }
    ensures sets { SetsEachAtMost header.now.layout 2 pages.old pages.new }
    ensures shaped { HasShape header.now.layout pages.new }
    ensures full { HasAllPeaks header.now.layout peaks.new }
{
    looks_may_be_made();
    set_pressure(pages, peaks, header, rules, node);
    let balance = balance_test(pages, header, node, order, most);
    settle(pages, peaks, header, rules, node, balance);
    balance
}

/// Sets normal thresholds again if the node is balanced.
fn settle<N: Rule, P: Rule>(
    pages: &mut Plain,
    peaks: &mut Peaks,
    header: &Header,
    rules: &Rules<N, P>,
    node: PlaceId,
    balance: Balance,
)
    requires header { IsHeader header.now }
    requires shaped { HasShape header.now.layout pages.old }
    requires full { HasAllPeaks header.now.layout peaks.old }
    requires some_online { HasOnline header.now.layout pages.old.cpu }
    requires room { SetAtMost header.now.layout (most_sets - 1) pages.old }
    requires node { IsNode header.now.layout node.number }
    ensures makes { ControlMakes header.now
        (λ base p h steps. SetsAfterYes (facts_of header.now base)
        (N.answers rules.now.normal) node p balance h steps)
        pages.old peaks.old pages.new peaks.new }
    ensures places { SettlesPlaces header.now (N.answers rules.now.normal) node balance
        pages.old peaks.old pages.new peaks.new }
    ensures rest { SetsOnly pages.old pages.new }
    ensures sets { SetsEachAtMost header.now.layout 1 pages.old pages.new }
    ensures shaped { HasShape header.now.layout pages.new }
    ensures full { HasAllPeaks header.now.layout peaks.new }
{
    match balance {
        Balance::Yes(_, _) => set_normal(pages, peaks, header, rules, node),
        Balance::No => {}
    }
}
