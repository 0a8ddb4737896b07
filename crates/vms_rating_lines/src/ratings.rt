//! The calls that rate zones.

ghost use Rattle.std.specs.Prelude.{◌≡◌, ◌≢◌, ◌-◌, ◌++◌, OnErr, OnOk};
ghost use Rattle.vms_text.specs.Common.{Begins};
ghost use Rattle.vms_calls.specs.Common.{HasOnline, HasShape, IsHeader, IsNode, RatesNode, Refreshes, choice_of};
ghost use Rattle.vms_calls.specs.Common.{facts_of, most_sets};
ghost use Rattle.vms_calls.specs.declared.choices.Rating.TheVariants.{Refresh};
ghost use Rattle.vms_plain_control.specs.Common.{ControlMakes, HasAllPeaks, SetAtMost, SetsEachAtMost, SetsOnly};
ghost use Rattle.vms_rating_lines.specs.Lines.{ControlWrites, step_lines};
ghost use Rattle.vms_rating_lines.specs.ToldSteps.{node_told, refresh_told};

use crate::marks::load_marks;
use crate::visits::{write_states, write_thresholds, write_visit};
use vms_base::{Header, Layout, Memory, PlaceId};
use vms_calc::{Rule, Rules};
use vms_calls::Rating;
use vms_core::{MarkRead, Plain};
use vms_plain_control::{Peaks, refresh, set_normal, set_pressure};

/// Sets the pressure thresholds of a node's zones or their normal ones, as `set_pressure` and `set_normal` do, and
/// appends the lines of the events. After an error the thresholds are set, and the text may end in a part of the lines.
pub fn write_node_rating<N: Rule, P: Rule>(
    out: &mut Vec<u8>,
    caller: u32,
    pages: &mut Plain,
    peaks: &mut Peaks,
    header: &Header,
    rules: &Rules<N, P>,
    node: PlaceId,
    rating: Rating,
) -> Result<(), Memory>
    requires header { IsHeader header.now }
    requires shaped { HasShape header.now.layout pages.old }
    requires full { HasAllPeaks header.now.layout peaks.old }
    requires some_online { HasOnline header.now.layout pages.old.cpu }
    requires room { SetAtMost header.now.layout (most_sets - 1) pages.old }
    requires node { IsNode header.now.layout node.number }
    requires node_alone { rating ≢ Refresh }
    ensures writes { OnOk result (ControlWrites header.now (λ base p h steps. RatesNode (facts_of header.now base)
        (choice_of rating (P.answers rules.now.pressure) (N.answers rules.now.normal)) node p h steps)
        caller pages.old peaks.old pages.new peaks.new out.old.items out.new.items) }
    ensures rest { SetsOnly pages.old pages.new }
    ensures sets { SetsEachAtMost header.now.layout 1 pages.old pages.new }
    ensures shaped { HasShape header.now.layout pages.new }
    ensures full { HasAllPeaks header.now.layout peaks.new }
    ensures begins { Begins out.old.items out.new.items }
{
    let found = load_marks(pages, &header.layout);
    rate_node(pages, peaks, header, rules, node, rating);
    write_node(out, caller, pages, &header.layout, node, &found)
}

/// Refreshes the thresholds, as `refresh` does, and appends the lines of the events. After an error the thresholds are
/// set, and the text may end in a part of the lines.
pub fn write_refresh<N: Rule, P: Rule>(
    out: &mut Vec<u8>,
    caller: u32,
    pages: &mut Plain,
    peaks: &mut Peaks,
    header: &Header,
    rules: &Rules<N, P>,
) -> Result<(), Memory>
    requires header { IsHeader header.now }
    requires shaped { HasShape header.now.layout pages.old }
    requires full { HasAllPeaks header.now.layout peaks.old }
    requires some_online { HasOnline header.now.layout pages.old.cpu }
    requires room { SetAtMost header.now.layout (most_sets - 1) pages.old }
    ensures writes { OnOk result (ControlWrites header.now (λ base p h steps. Refreshes (facts_of header.now base)
        (N.answers rules.now.normal) p h steps)
        caller pages.old peaks.old pages.new peaks.new out.old.items out.new.items) }
    ensures rest { SetsOnly pages.old pages.new }
    ensures sets { SetsEachAtMost header.now.layout 1 pages.old pages.new }
    ensures shaped { HasShape header.now.layout pages.new }
    ensures full { HasAllPeaks header.now.layout peaks.new }
    ensures begins { Begins out.old.items out.new.items }
{
    let found = load_marks(pages, &header.layout);
    refresh(pages, peaks, header, rules);
    write_all(out, caller, pages, &header.layout, &found)
}

/// Sets the thresholds of a node's zones.
fn rate_node<N: Rule, P: Rule>(
    pages: &mut Plain,
    peaks: &mut Peaks,
    header: &Header,
    rules: &Rules<N, P>,
    node: PlaceId,
    rating: Rating,
)
    requires header { IsHeader header.now }
    requires shaped { HasShape header.now.layout pages.old }
    requires full { HasAllPeaks header.now.layout peaks.old }
    requires some_online { HasOnline header.now.layout pages.old.cpu }
    requires room { SetAtMost header.now.layout (most_sets - 1) pages.old }
    requires node { IsNode header.now.layout node.number }
    requires node_alone { rating ≢ Refresh }
    ensures makes { ControlMakes header.now (λ base p h steps. RatesNode (facts_of header.now base)
        (choice_of rating (P.answers rules.now.pressure) (N.answers rules.now.normal)) node p h steps)
        pages.old peaks.old pages.new peaks.new }
    ensures rest { SetsOnly pages.old pages.new }
    ensures sets { SetsEachAtMost header.now.layout 1 pages.old pages.new }
    ensures shaped { HasShape header.now.layout pages.new }
    ensures full { HasAllPeaks header.now.layout peaks.new }
{
    match rating {
        Rating::Pressure => set_pressure(pages, peaks, header, rules, node),
        Rating::Normal => set_normal(pages, peaks, header, rules, node),
        Rating::Refresh => {}
    }
}

/// The lines of a rating of a node's zones.
fn write_node(
    out: &mut Vec<u8>,
    caller: u32,
    pages: &Plain,
    layout: &Layout,
    node: PlaceId,
    found: &[MarkRead; 16],
) -> Result<(), Memory>
    requires shaped { HasShape layout.now pages.now }
    requires node { IsNode layout.now node.number }
    ensures ok { OnOk result (out.new.items
        ≡ out.old.items ++ step_lines caller (node_told layout.now node pages.now found.now)) }
    ensures err { OnErr result (Begins out.old.items out.new.items) }
{
    write_states(out, caller, pages, layout)?;
    let number = layout.nodes()[node.number as usize - layout.zones().len()];
    for zone in 0..layout.zones().len() {
        if layout.zones()[zone].node == number {
            let read = found[zone];
            let zone = PlaceId {
                number: zone as u32,
            };
            write_visit(out, caller, pages, layout, zone, read, read.mark == 0)?;
        }
    }
    Ok(())
}

/// The lines of a refresh.
fn write_all(
    out: &mut Vec<u8>,
    caller: u32,
    pages: &Plain,
    layout: &Layout,
    found: &[MarkRead; 16],
) -> Result<(), Memory>
    requires shaped { HasShape layout.now pages.now }
    ensures ok { OnOk result (out.new.items
        ≡ out.old.items ++ step_lines caller (refresh_told layout.now pages.now found.now)) }
    ensures err { OnErr result (Begins out.old.items out.new.items) }
{
    write_states(out, caller, pages, layout)?;
    for zone in 0..layout.zones().len() {
        let read = found[zone];
        let zone = PlaceId {
            number: zone as u32,
        };
        write_visit(out, caller, pages, layout, zone, read, false)?;
    }
    for number in layout.zones().len() as u32..layout.places() {
        write_thresholds(out, caller, pages, layout, PlaceId { number })?;
    }
    Ok(())
}
