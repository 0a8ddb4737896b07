ghost use Rattle.std.specs.Prelude.{◌≡◌, IfOk, MatchResult, None, []};
ghost use Rattle.vms_world.specs.Common.{IsNode, ByNormal, ByPressure, IsTurn, Refreshes, SetsNormal, SetsPressure};
ghost use Rattle.vms_control.specs.SettledMarks.{SettlesAll, SettlesNode};
ghost use Rattle.vms_counters.specs.Calls.{IsNodeTest, Makes, RefusesRating, RefusesRefresh, RefusesTurn};
ghost use Rattle.vms_counters.specs.Handles.{IsControlPass, handle_of};
ghost use Rattle.vms_kswapd.specs.Common.{NamesPassed};

use crate::errors::CallError;
use crate::looks::check_node;
use crate::shared::SharedCounters;
use vms_base::PlaceId;
use vms_calc::{Rule, Rules};
use vms_calls::Balance;
use vms_words::ControlPass;

/// How often a threshold or a mark may be set.
pub(crate) const MOST_SETS: u32 = 2_000_000;

/// Sets the pressure thresholds of a node's zones.
pub(crate) fn set_pressure<N: Rule, P: Rule>(
    shared: &SharedCounters,
    pass: &mut ControlPass,
    rules: &Rules<N, P>,
    node: PlaceId,
) -> Result<(), CallError>
    requires { IsControlPass shared.now.header shared.now.tables.pages pass.old }
    ensures between { IsControlPass shared.now.header shared.now.tables.pages pass.new }
    ensures made { MatchResult result
        (λ _. Makes (IsNode shared.now.tables.pages.facts.layout node.number)
        (λ steps. SetsPressure shared.now.tables.pages.facts (P.answers rules.now.pressure) (N.answers rules.now.normal)
        node
        pass.old.number pass.old.seen steps)
        (handle_of shared.now.header pass.new []) (handle_of shared.now.header pass.old []))
        (RefusesRating 0 (handle_of shared.now.header pass.new []) (handle_of shared.now.header pass.old []) node) }
    ensures marks { IfOk result (λ _. SettlesNode shared.now.tables.pages.facts (ByPressure (P.answers
        rules.now.pressure)
        (N.answers rules.now.normal)) node pass.new pass.old) }
{
    let SharedCounters { header, tables } = shared;
    let table = &tables.pages;
    check_node(table.layout(), node)?;
    if table.most_sets(pass) >= MOST_SETS {
        return Err(CallError::TooOften);
    }
    vms_control::set_pressure(table, pass, header, rules, node);
    Ok(())
}

/// Sets the normal thresholds of a node's zones again.
pub(crate) fn set_normal<N: Rule, P: Rule>(
    shared: &SharedCounters,
    pass: &mut ControlPass,
    rules: &Rules<N, P>,
    node: PlaceId,
) -> Result<(), CallError>
    requires { IsControlPass shared.now.header shared.now.tables.pages pass.old }
    ensures between { IsControlPass shared.now.header shared.now.tables.pages pass.new }
    ensures made { MatchResult result
        (λ _. Makes (IsNode shared.now.tables.pages.facts.layout node.number)
        (λ steps. SetsNormal shared.now.tables.pages.facts (N.answers rules.now.normal) node pass.old.number
        pass.old.seen
        steps)
        (handle_of shared.now.header pass.new []) (handle_of shared.now.header pass.old []))
        (RefusesRating 0 (handle_of shared.now.header pass.new []) (handle_of shared.now.header pass.old []) node) }
    ensures marks { IfOk result (λ _. SettlesNode shared.now.tables.pages.facts (ByNormal (N.answers rules.now.normal))
        node
        pass.new pass.old) }
{
    let SharedCounters { header, tables } = shared;
    let table = &tables.pages;
    check_node(table.layout(), node)?;
    if table.most_sets(pass) >= MOST_SETS {
        return Err(CallError::TooOften);
    }
    vms_control::set_normal(table, pass, header, rules, node);
    Ok(())
}

/// Gives each zone its normal threshold, and each node the largest of its zones.
pub(crate) fn refresh_thresholds<N: Rule, P: Rule>(
    shared: &SharedCounters,
    pass: &mut ControlPass,
    rules: &Rules<N, P>,
) -> Result<(), CallError>
    requires { IsControlPass shared.now.header shared.now.tables.pages pass.old }
    ensures between { IsControlPass shared.now.header shared.now.tables.pages pass.new }
    ensures made { MatchResult result
        (λ _. Makes (Unit {0})
        (λ steps. Refreshes shared.now.tables.pages.facts (N.answers rules.now.normal) pass.old.number pass.old.seen
        steps)
        (handle_of shared.now.header pass.new []) (handle_of shared.now.header pass.old []))
        (RefusesRefresh (handle_of shared.now.header pass.new []) (handle_of shared.now.header pass.old [])) }
    ensures marks { IfOk result (λ _. SettlesAll shared.now.tables.pages.facts (N.answers rules.now.normal) pass.new
        pass.old) }
{
    let SharedCounters { header, tables } = shared;
    let table = &tables.pages;
    if table.most_sets(pass) >= MOST_SETS {
        return Err(CallError::TooOften);
    }
    vms_control::refresh_thresholds(table, pass, header, rules);
    Ok(())
}

/// Takes a turn of kswapd on a node.
pub(crate) fn kswapd_turn<N: Rule, P: Rule>(
    shared: &SharedCounters,
    pass: &mut ControlPass,
    rules: &Rules<N, P>,
    node: PlaceId,
    order: u32,
    most: u32,
) -> Result<Balance, CallError>
    requires { IsControlPass shared.now.header shared.now.tables.pages pass.old }
    ensures between { IsControlPass shared.now.header shared.now.tables.pages pass.new }
    ensures made { MatchResult result
        (λ balance. Makes (IsNodeTest shared.now.tables.pages.facts.layout node order most)
        (λ steps. IsTurn shared.now.header shared.now.tables.pages.facts.base (P.answers rules.now.pressure)
        (N.answers rules.now.normal) node order most pass.old.number pass.old.seen steps balance)
        (handle_of shared.now.header pass.new []) (handle_of shared.now.header pass.old []))
        (RefusesTurn (handle_of shared.now.header pass.new []) (handle_of shared.now.header pass.old []) node order
        most) }
    ensures passed { IfOk result (NamesPassed shared.now.header pass.new pass.old node order most) }
{
    let SharedCounters { header, tables } = shared;
    let table = &tables.pages;
    check_node(table.layout(), node)?;
    if order > 10 {
        return Err(CallError::NoOrder(order));
    }
    if most > 3 {
        return Err(CallError::NoZoneIndex(most));
    }
    if table.most_sets(pass) >= MOST_SETS - 1 {
        return Err(CallError::TooOften);
    }
    Ok(vms_kswapd::kswapd_turn(table, pass, header, rules, node, order, most))
}
