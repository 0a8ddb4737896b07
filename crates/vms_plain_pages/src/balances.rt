ghost use Rattle.std.specs.Prelude.{◌≡◌, ◌≤◌, ◌^◌, Option};
ghost use Rattle.vms_calls.specs.Common.{CpuId, IsHeader, IsNode, IsBalanceTest};
ghost use Rattle.vms_plain_pages.specs.Alone.{IsSmallState, CallLeadsAlone};
ghost use Rattle.vms_plain_pages.specs.Balances.{balance_at};

use crate::orders::order_test;
use vms_base::{Header, PlaceId, WaterMark};
use vms_calc::is_up_to;
use vms_calls::Balance;
use vms_core::Plain;

/// Tests whether a node is balanced for an order (`pgdat_balanced` of mm/vmscan.c): its zones up to the zone index
/// `most` are tested in order by their `high` watermark, up to the first that passes.
pub fn balance_test(pages: &Plain, header: &Header, node: PlaceId, order: u32, most: u32) -> Balance
    requires header { IsHeader header.now }
    requires room { IsSmallState header.now.layout (2 ^ 61) pages.now }
    requires node { IsNode header.now.layout node.number }
    requires order { order ≤ 10 }
    requires most { most ≤ 3 }
    ensures made { (who : Option CpuId) →
        CallLeadsAlone who (λ steps. IsBalanceTest header.now node order most steps result)
        pages.now pages.now }
    ensures answer { result ≡ balance_at header.now node order most pages.now }
{
    let zones = header.layout.zones();
    let number = header.layout.nodes()[node.number as usize - zones.len()];
    for place in 0..zones.len() {
        if is_up_to(zones[place], number, most) {
            let zone = PlaceId {
                number: place as u32,
            };
            let verdict = order_test(pages, header, zone, WaterMark::High, most, order);
            if verdict.yes {
                return Balance::Yes(zone, verdict);
            }
        }
    }
    Balance::No
}
