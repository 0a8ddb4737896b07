//! A turn of kswapd.

ghost use Rattle.std.specs.Prelude.{◌≡◌, ◌-◌, ◌^◌, ◌≤◌, IfOk, OnErr, OnOk};
ghost use Rattle.vms_text.specs.Common.{Begins};
ghost use Rattle.vms_calls.specs.Common.{HasOnline, HasShape, IsHeader, IsNode, IsTurn, SetsAfterYes, State, facts_of};
ghost use Rattle.vms_calls.specs.Common.{most_sets};
ghost use Rattle.vms_plain_pages.specs.Common.{IsSmallState, balance_at};
ghost use Rattle.vms_plain_control.specs.Common.{HasAllPeaks, SetAtMost, SetsEachAtMost, SetsOnly};
ghost use Rattle.vms_rating_lines.specs.Lines.{ControlWrites};

use crate::orders::write_balance;
use vms_base::{Header, Memory, PlaceId};
use vms_calc::{Rule, Rules};
use vms_calls::{Balance, Rating, looks_may_be_made};
use vms_core::Plain;
use vms_plain_control::Peaks;
use vms_rating_lines::write_node_rating;

/// Takes a turn of kswapd on a node, as `vms_plain_control::turn` does.
pub(crate) fn write_turn<N: Rule, P: Rule>(
    out: &mut Vec<u8>,
    caller: u32,
    pages: &mut Plain,
    peaks: &mut Peaks,
    header: &Header,
    rules: &Rules<N, P>,
    node: PlaceId,
    order: u32,
    most: u32,
) -> Result<Balance, Memory>
    requires header { IsHeader header.now }
    requires numbers { IsSmallState header.now.layout (2 ^ 61) pages.old }
    requires full { HasAllPeaks header.now.layout peaks.old }
    requires some_online { HasOnline header.now.layout pages.old.cpu }
    requires room { SetAtMost header.now.layout (most_sets - 2) pages.old }
    requires node { IsNode header.now.layout node.number }
    requires order { order ≤ 10 }
    requires most { most ≤ 3 }
    ensures writes { IfOk result (λ balance. ControlWrites header.now
        (λ base p h steps. IsTurn header.now base (P.answers rules.now.pressure) (N.answers rules.now.normal) node order
        most p h steps balance)
        caller pages.old peaks.old pages.new peaks.new out.old.items out.new.items) }
    ensures answer { IfOk result (λ balance. (pressed : State) × SetsOnly pages.old pressed
        × (balance ≡ balance_at header.now node order most pressed)) }
    ensures rest { OnOk result (SetsOnly pages.old pages.new) }
    ensures sets { OnOk result (SetsEachAtMost header.now.layout 2 pages.old pages.new) }
    ensures full { OnOk result (HasAllPeaks header.now.layout peaks.new) }
    ensures err { OnErr result (Begins out.old.items out.new.items) }
{
    looks_may_be_made();
    write_node_rating(
        out,
        caller,
        pages,
        peaks,
        header,
        rules,
        node,
        Rating::Pressure,
    )?;
    let balance = write_balance(out, caller, pages, header, node, order, most)?;
    write_settling(out, caller, pages, peaks, header, rules, node, balance)?;
    Ok(balance)
}

/// Sets normal thresholds again if the node is balanced.
fn write_settling<N: Rule, P: Rule>(
    out: &mut Vec<u8>,
    caller: u32,
    pages: &mut Plain,
    peaks: &mut Peaks,
    header: &Header,
    rules: &Rules<N, P>,
    node: PlaceId,
    balance: Balance,
) -> Result<(), Memory>
    requires header { IsHeader header.now }
    requires shaped { HasShape header.now.layout pages.old }
    requires full { HasAllPeaks header.now.layout peaks.old }
    requires some_online { HasOnline header.now.layout pages.old.cpu }
    requires room { SetAtMost header.now.layout (most_sets - 1) pages.old }
    requires node { IsNode header.now.layout node.number }
    ensures writes { OnOk result (ControlWrites header.now
        (λ base p h steps. SetsAfterYes (facts_of header.now base) (N.answers rules.now.normal) node p balance h steps)
        caller pages.old peaks.old pages.new peaks.new out.old.items out.new.items) }
    ensures rest { SetsOnly pages.old pages.new }
    ensures sets { SetsEachAtMost header.now.layout 1 pages.old pages.new }
    ensures full { HasAllPeaks header.now.layout peaks.new }
    ensures err { OnErr result (Begins out.old.items out.new.items) }
{
    match balance {
        Balance::Yes(_, _) => {
            write_node_rating(
                out,
                caller,
                pages,
                peaks,
                header,
                rules,
                node,
                Rating::Normal,
            )
        }
        Balance::No => Ok(()),
    }
}
