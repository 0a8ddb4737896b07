ghost use Rattle.std.specs.Prelude.{◌≡◌, ◌≢◌, ℕ, suc, ◌<◌, ◌≤◌, List, length};
ghost use Rattle.vms_calls.specs.Common.{IsNode, IsPlace, RatesNode, SetsNormal, SetsPressure, VisitsEach, node_number};
ghost use Rattle.vms_calls.specs.Common.{zones_on, ByNormal, ByPressure, Step, IsControl, pages, choice_of, rated_by};
ghost use Rattle.vms_calls.specs.declared.choices.Rating.TheVariants.{Refresh};
ghost use Rattle.vms_control.specs.Online.{FoundOnline};
ghost use Rattle.vms_control.specs.SetCounts.{HasSetsLeft, MayStillSet, SetsAtMost, SetsOnceMore, once};
ghost use Rattle.vms_control.specs.SettledMarks.{SettlesNode};
ghost use Rattle.vms_control.specs.Unladen.{StaysUnladen};
ghost use Rattle.vms_seats.specs.Common.{IsFrom, Made};

use crate::online::load_online;
use crate::visiting::visit;
use vms_base::{CpuId, Header, PlaceId};
use vms_calc::{Rule, Rules};
use vms_calls::{Rating, control_passes_know_by_own_steps};
use vms_words::{Caller, ControlPass, PageTable};

/// Sets the pressure thresholds of a node's zones, under marks that cover them (`set_pgdat_percpu_threshold` of
/// mm/vmstat.c with `calculate_pressure_threshold`). A zone whose mark is 0 keeps its thresholds.
///
/// At every moment each mark covers what the CPUs may hide of its zone by the thresholds that they may still be using:
/// this holds of every legal history, and so in the middle of this call too. A mark comes down, also to 0, where CPUs
/// acknowledged smaller thresholds or became absent. Where it came down to 0, `set_normal` then leaves the zone as it
/// is.
///
/// Where no CPU is dead and each CPU that is online was found to have acknowledged the newest threshold of a zone, the
/// call leaves Linux's mark for the normal threshold, raised to cover the larger of the old and the new threshold of
/// each of these CPUs, in sum.
///
/// `PageTable::most_sets` has to be below 2,000,000, and grows by at most 1.
pub fn set_pressure<N: Rule, P: Rule>(
    table: &PageTable,
    pass: &mut ControlPass,
    header: &Header,
    rules: &Rules<N, P>,
    node: PlaceId,
)
    requires table { IsFrom pass.old table.now }
    requires sizes { header.now.sizes ≡ table.now.facts.sizes }
    requires node { IsNode table.now.facts.layout node.number }
    requires room { HasSetsLeft table.now.facts pass.old.seen }
    ensures made { (steps : List Step) × SetsPressure table.now.facts (P.answers rules.now.pressure)
        (N.answers rules.now.normal) node pass.old.number pass.old.seen steps × Made pages pass.new pass.old steps }
    ensures marks { SettlesNode table.now.facts (ByPressure (P.answers rules.now.pressure)
        (N.answers rules.now.normal)) node pass.new pass.old }
    ensures control { IsControl pass.old.seen pass.old.number }
    ensures carries { StaysUnladen table.now.facts pass.new pass.old }
    ensures sets { SetsOnceMore table.now.facts pass.new.seen pass.old.seen }
{
    rate_node(table, pass, header, rules, node, Rating::Pressure);
}

/// Sets the normal thresholds of a node's zones again, under marks that cover them (`set_pgdat_percpu_threshold` of
/// mm/vmstat.c with `calculate_normal_threshold`). A zone whose mark is 0 keeps its thresholds. What `set_pressure`
/// says of marks and of `PageTable::most_sets` holds of this call too.
pub fn set_normal<N: Rule, P: Rule>(
    table: &PageTable,
    pass: &mut ControlPass,
    header: &Header,
    rules: &Rules<N, P>,
    node: PlaceId,
)
    requires table { IsFrom pass.old table.now }
    requires sizes { header.now.sizes ≡ table.now.facts.sizes }
    requires node { IsNode table.now.facts.layout node.number }
    requires room { HasSetsLeft table.now.facts pass.old.seen }
    ensures made { (steps : List Step) × SetsNormal table.now.facts (N.answers rules.now.normal) node pass.old.number
        pass.old.seen steps × Made pages pass.new pass.old steps }
    ensures marks { SettlesNode table.now.facts (ByNormal (N.answers rules.now.normal)) node pass.new pass.old }
    ensures control { IsControl pass.old.seen pass.old.number }
    ensures carries { StaysUnladen table.now.facts pass.new pass.old }
    ensures sets { SetsOnceMore table.now.facts pass.new.seen pass.old.seen }
{
    rate_node(table, pass, header, rules, node, Rating::Normal);
}

/// Looks which CPUs are online, and visits the zones of a node.
fn rate_node<N: Rule, P: Rule>(
    table: &PageTable,
    pass: &mut ControlPass,
    header: &Header,
    rules: &Rules<N, P>,
    node: PlaceId,
    rating: Rating,
)
    requires table { IsFrom pass.old table.now }
    requires sizes { header.now.sizes ≡ table.now.facts.sizes }
    requires node { IsNode table.now.facts.layout node.number }
    requires node_alone { rating ≢ Refresh }
    requires room { HasSetsLeft table.now.facts pass.old.seen }
    ensures made { (steps : List Step) × RatesNode table.now.facts
        (choice_of rating (P.answers rules.now.pressure) (N.answers rules.now.normal)) node pass.old.number
        pass.old.seen steps × Made pages pass.new pass.old steps }
    ensures marks { SettlesNode table.now.facts (choice_of rating (P.answers rules.now.pressure)
        (N.answers rules.now.normal)) node pass.new pass.old }
    ensures control { IsControl pass.old.seen pass.old.number }
    ensures carries { StaysUnladen table.now.facts pass.new pass.old }
    ensures sets { SetsOnceMore table.now.facts pass.new.seen pass.old.seen }
{
    // What a pass computed from peaks stands, whatever others did meanwhile.
    control_passes_know_by_own_steps();
    let online = load_online(table, pass);
    visit_node(table, pass, header, rules, node, online.as_slice(), rating);
}

/// Visits the zones of a node.
fn visit_node<N: Rule, P: Rule>(
    table: &PageTable,
    pass: &mut ControlPass,
    header: &Header,
    rules: &Rules<N, P>,
    node: PlaceId,
    online: &[CpuId],
    rating: Rating,
)
    requires table { IsFrom pass.old table.now }
    requires sizes { header.now.sizes ≡ table.now.facts.sizes }
    requires node { IsNode table.now.facts.layout node.number }
    requires online { FoundOnline table.now.facts online.now }
    requires room { IsControl pass.old.seen pass.old.number → (g : ℕ) → IsPlace table.now.facts.layout g →
        MayStillSet table.now.facts pass.old.seen g }
    ensures made { (ts : List ℕ) × (steps : List Step) × VisitsEach table.now.facts pass.old.number online.now
        (rated_by rating (P.answers rules.now.pressure) (N.answers rules.now.normal) table.now.facts pass.old.number
        online.now) (zones_on table.now.facts.layout (node_number table.now.facts.layout node)) ts pass.old.seen steps
        × Made pages pass.new pass.old steps }
    ensures control { IsControl pass.old.seen pass.old.number }
    ensures sets { SetsAtMost table.now.facts (once 0 (length table.now.facts.layout.zones))
        (once 0 (length table.now.facts.layout.zones)) pass.new.seen pass.old.seen }
{
    pass.is_live();
    control_passes_know_by_own_steps();
    let layout = table.layout();
    let number = layout.nodes()[node.number as usize - layout.zones().len()];
    for zone in 0..layout.zones().len() {
        if layout.zones()[zone].node == number {
            let zone = PlaceId {
                number: zone as u32,
            };
            visit(table, pass, header, rules, zone, online, rating);
        }
    }
}
