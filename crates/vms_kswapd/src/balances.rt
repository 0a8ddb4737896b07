ghost use Rattle.std.specs.Prelude.{◌≡◌, ◌≤◌, List};
ghost use Rattle.vms_calls.specs.Common.{IsHeader, IsNode, IsBalanceTest, Step, pages};
ghost use Rattle.vms_kswapd.specs.Passing.{NamesPassed, YesPassed};
ghost use Rattle.vms_seats.specs.Common.{IsFrom, Made};

use crate::orders::zone_ok;
use vms_base::{Header, PlaceId, WaterMark};
use vms_calc::is_up_to;
use vms_calls::Balance;
use vms_words::{Caller, PageTable};

/// Tests whether a node is balanced for an order (`pgdat_balanced` of mm/vmscan.c): its zones up to the zone index
/// `most` are tested in order by their `high` watermark, up to the first that passes. Unlike the kernel's, the answer
/// is no where the node has no such zone.
///
/// Of the free pages of the zone that a yes names it says what `zone_ok` does, and so of those of each zone after a no.
pub fn balanced<P: Caller>(
    table: &PageTable,
    pass: &mut P,
    header: &Header,
    node: PlaceId,
    order: u32,
    most: u32,
) -> Balance
    requires table { IsFrom (P.pass pass.old) table.now }
    requires header { IsHeader header.now }
    requires layout { header.now.layout ≡ table.now.facts.layout }
    requires sizes { header.now.sizes ≡ table.now.facts.sizes }
    requires node { IsNode header.now.layout node.number }
    requires order { order ≤ 10 }
    requires most { most ≤ 3 }
    ensures made { (steps : List Step) × IsBalanceTest header.now node order most steps result
        × Made pages (P.pass pass.new) (P.pass pass.old) steps }
    ensures passed { NamesPassed header.now (P.pass pass.new) (P.pass pass.old) node order most result }
    ensures volume { P.volume pass.new ≡ P.volume pass.old }
{
    first_balanced(table, pass, header, node, order, most)
}

/// The first zone of a node that passes, if one does.
fn first_balanced<P: Caller>(
    table: &PageTable,
    pass: &mut P,
    header: &Header,
    node: PlaceId,
    order: u32,
    most: u32,
) -> Balance
    requires table { IsFrom (P.pass pass.old) table.now }
    requires header { IsHeader header.now }
    requires layout { header.now.layout ≡ table.now.facts.layout }
    requires sizes { header.now.sizes ≡ table.now.facts.sizes }
    requires node { IsNode header.now.layout node.number }
    requires order { order ≤ 10 }
    requires most { most ≤ 3 }
    ensures made { (steps : List Step) × IsBalanceTest header.now node order most steps result
        × Made pages (P.pass pass.new) (P.pass pass.old) steps }
    ensures passed { YesPassed header.now (P.pass pass.new) (P.pass pass.old) node order most result }
    ensures volume { P.volume pass.new ≡ P.volume pass.old }
{
    pass.is_live();
    let zones = header.layout.zones();
    let number = header.layout.nodes()[node.number as usize - zones.len()];
    for place in 0..zones.len() {
        if is_up_to(zones[place], number, most) {
            let zone = PlaceId {
                number: place as u32,
            };
            let verdict = zone_ok(table, pass, header, zone, WaterMark::High, order, most);
            if verdict.yes {
                return Balance::Yes(zone, verdict);
            }
        }
    }
    Balance::No
}
