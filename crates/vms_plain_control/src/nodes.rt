ghost use Rattle.std.specs.Prelude.{◌≢◌, ◌-◌};
ghost use Rattle.vms_calls.specs.Common.{HasOnline, IsHeader, IsNode, HasShape, most_sets, facts_of, RatesNode};
ghost use Rattle.vms_calls.specs.Common.{SetsNormal, SetsPressure, choice_of, ByNormal, ByPressure};
ghost use Rattle.vms_calls.specs.declared.choices.Rating.TheVariants.{Refresh};
ghost use Rattle.vms_plain_control.specs.Control.{ControlMakes};
ghost use Rattle.vms_plain_control.specs.KnownPeaks.{HasAllPeaks};
ghost use Rattle.vms_plain_control.specs.RatedPlaces.{RatesPlaces};
ghost use Rattle.vms_plain_control.specs.SetCounts.{SetAtMost, SetsEachAtMost, SetsOnly};

use crate::Peaks;
use crate::online::count_online;
use crate::visiting::visit;
use vms_base::{Header, PlaceId};
use vms_calc::{Rule, Rules};
use vms_calls::Rating;
use vms_core::Plain;

/// Sets the pressure thresholds of a node's zones, with marks that cover them (`set_pgdat_percpu_threshold` of
/// mm/vmstat.c with `calculate_pressure_threshold`). A zone without a mark keeps its thresholds.
pub fn set_pressure<N: Rule, P: Rule>(
    pages: &mut Plain,
    peaks: &mut Peaks,
    header: &Header,
    rules: &Rules<N, P>,
    node: PlaceId,
)
    requires header { IsHeader header.now }
    requires shaped { HasShape header.now.layout pages.old }
    requires full { HasAllPeaks header.now.layout peaks.old }
    requires some_online { HasOnline header.now.layout pages.old.cpu }
    requires room { SetAtMost header.now.layout (most_sets - 1) pages.old }
    requires node { IsNode header.now.layout node.number }
    ensures makes { ControlMakes header.now
        (λ base p h steps. SetsPressure (facts_of header.now base)
        (P.answers rules.now.pressure) (N.answers rules.now.normal) node p h steps)
        pages.old peaks.old pages.new peaks.new }
    ensures places { RatesPlaces header.now
        (ByPressure (P.answers rules.now.pressure) (N.answers rules.now.normal)) node
        pages.old peaks.old pages.new peaks.new }
    ensures rest { SetsOnly pages.old pages.new }
    ensures sets { SetsEachAtMost header.now.layout 1 pages.old pages.new }
    ensures shaped { HasShape header.now.layout pages.new }
    ensures full { HasAllPeaks header.now.layout peaks.new }
{
    rate_node(pages, peaks, header, rules, node, Rating::Pressure);
}

/// Sets the normal thresholds of a node's zones again (`set_pgdat_percpu_threshold` of mm/vmstat.c with
/// `calculate_normal_threshold`).
pub fn set_normal<N: Rule, P: Rule>(
    pages: &mut Plain,
    peaks: &mut Peaks,
    header: &Header,
    rules: &Rules<N, P>,
    node: PlaceId,
)
    requires header { IsHeader header.now }
    requires shaped { HasShape header.now.layout pages.old }
    requires full { HasAllPeaks header.now.layout peaks.old }
    requires some_online { HasOnline header.now.layout pages.old.cpu }
    requires room { SetAtMost header.now.layout (most_sets - 1) pages.old }
    requires node { IsNode header.now.layout node.number }
    ensures makes { ControlMakes header.now (λ base p h steps. SetsNormal (facts_of header.now base)
        (N.answers rules.now.normal) node p h steps)
        pages.old peaks.old pages.new peaks.new }
    ensures places { RatesPlaces header.now (ByNormal (N.answers rules.now.normal)) node
        pages.old peaks.old pages.new peaks.new }
    ensures rest { SetsOnly pages.old pages.new }
    ensures sets { SetsEachAtMost header.now.layout 1 pages.old pages.new }
    ensures shaped { HasShape header.now.layout pages.new }
    ensures full { HasAllPeaks header.now.layout peaks.new }
{
    rate_node(pages, peaks, header, rules, node, Rating::Normal);
}

/// Visits the zones of a node.
fn rate_node<N: Rule, P: Rule>(
    pages: &mut Plain,
    peaks: &mut Peaks,
    header: &Header,
    rules: &Rules<N, P>,
    node: PlaceId,
    rating: Rating,
)
    requires header { IsHeader header.now }
    requires shaped { HasShape header.now.layout pages.old }
    requires full { HasAllPeaks header.now.layout peaks.old }
    requires some_online { HasOnline header.now.layout pages.old.cpu }
    requires room { SetAtMost header.now.layout (most_sets - 1) pages.old }
    requires node { IsNode header.now.layout node.number }
    requires node_alone { rating ≢ Refresh }
    ensures makes { ControlMakes header.now (λ base p h steps. RatesNode (facts_of header.now base)
        (choice_of rating (P.answers rules.now.pressure) (N.answers rules.now.normal)) node p h steps)
        pages.old peaks.old pages.new peaks.new }
    ensures places { RatesPlaces header.now
        (choice_of rating (P.answers rules.now.pressure) (N.answers rules.now.normal)) node
        pages.old peaks.old pages.new peaks.new }
    ensures rest { SetsOnly pages.old pages.new }
    ensures sets { SetsEachAtMost header.now.layout 1 pages.old pages.new }
    ensures shaped { HasShape header.now.layout pages.new }
    ensures full { HasAllPeaks header.now.layout peaks.new }
{
    rules.tells();
    let layout = &header.layout;
    let online = count_online(pages, layout);
    let number = layout.nodes()[node.number as usize - layout.zones().len()];
    for zone in 0..layout.zones().len() {
        if layout.zones()[zone].node == number {
            let zone = PlaceId {
                number: zone as u32,
            };
            visit(pages, peaks, header, rules, zone, online, rating);
        }
    }
}
