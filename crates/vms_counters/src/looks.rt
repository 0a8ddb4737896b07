ghost use Rattle.std.specs.Prelude.{◌≡◌, ◌≢◌, true, false, IfOk, MatchResult};
ghost use Rattle.vms_world.specs.Common.{IsNode, IsCounter, IsCpu, IsFold, IsHeader, IsItem, IsPlaceValue, IsSnapshot};
ghost use Rattle.vms_world.specs.Common.{IsSystemValue, IsWatermarkTest, free_pages, limit_of};
ghost use Rattle.vms_calls.specs.Turns.{IsBalanceTest, IsOrderTest};
ghost use Rattle.vms_count.specs.Common.{owns_cpu};
ghost use Rattle.vms_counters.specs.Calls.{IsNodeTest, IsOrderedTest, IsZoneTest, Makes, Refuses, RefusesNodeTest};
ghost use Rattle.vms_counters.specs.Calls.{RefusesOrderTest, RefusesZoneTest};
ghost use Rattle.vms_counters.specs.Handles.{IsBetweenCalls, handle_of};
ghost use Rattle.vms_kswapd.specs.Common.{CountsBlocks, NamesPassed};
ghost use Rattle.vms_look.specs.Common.{LoadsTruly, SaysTruly, SumsTruly, SystemLoadsTruly, TellsTruly};

use crate::errors::CallError;
use crate::shared::SharedCounters;
use vms_base::{CounterId, CpuId, ItemId, Layout, PlaceId, WaterMark};
use vms_calls::{
    Balance, OrderVerdict, Verdict, folds_leave_their_caller, looks_leave_their_caller,
};
use vms_words::Caller;

// The calls that every handle has, by the pass that it is.

/// Folds a CPU.
pub(crate) fn fold<P: Caller>(
    shared: &SharedCounters,
    pass: &mut P,
    cpu: CpuId,
) -> Result<(), CallError>
    requires { IsBetweenCalls shared.now.tables.pages (P.pass pass.old) }
    ensures between { IsBetweenCalls shared.now.tables.pages (P.pass pass.new) }
    ensures made { MatchResult result
        (λ _. Makes (IsCpu shared.now.tables.pages.facts.layout cpu.number)
        (IsFold shared.now.tables.pages.facts.layout (owns_cpu (P.pass pass.old).cpu cpu) cpu)
        (handle_of shared.now.header (P.pass pass.new) (P.volume pass.new))
        (handle_of shared.now.header (P.pass pass.old) (P.volume pass.old)))
        (Refuses (IsCpu shared.now.tables.pages.facts.layout cpu.number) (CallError.NoCpu cpu.number)
        (handle_of shared.now.header (P.pass pass.new) (P.volume pass.new))
        (handle_of shared.now.header (P.pass pass.old) (P.volume pass.old))) }
{
    let table = &shared.tables.pages;
    if cpu.number >= table.layout().cpus() {
        return Err(CallError::NoCpu(cpu.number));
    }
    vms_count::fold(table, pass, cpu);
    Ok(())
}

/// The global value of a counter.
pub(crate) fn value<P: Caller>(
    shared: &SharedCounters,
    pass: &mut P,
    counter: CounterId,
) -> Result<u64, CallError>
    requires { IsBetweenCalls shared.now.tables.pages (P.pass pass.old) }
    ensures between { IsBetweenCalls shared.now.tables.pages (P.pass pass.new) }
    ensures made { MatchResult result
        (λ value. Makes (IsCounter shared.now.tables.pages.facts.layout counter.number)
        (λ steps. IsPlaceValue counter steps value)
        (handle_of shared.now.header (P.pass pass.new) (P.volume pass.new))
        (handle_of shared.now.header (P.pass pass.old) (P.volume pass.old)))
        (Refuses (IsCounter shared.now.tables.pages.facts.layout counter.number) (CallError.NoCounter counter.number)
        (handle_of shared.now.header (P.pass pass.new) (P.volume pass.new))
        (handle_of shared.now.header (P.pass pass.old) (P.volume pass.old))) }
    ensures truly { IfOk result (LoadsTruly (P.pass pass.new) (P.pass pass.old) counter) }
{
    looks_leave_their_caller();
    let table = &shared.tables.pages;
    if counter.number >= table.layout().counters() {
        return Err(CallError::NoCounter(counter.number));
    }
    Ok(vms_look::place_value(table, pass, counter))
}

/// The system-wide value of an item.
pub(crate) fn system_value<P: Caller>(
    shared: &SharedCounters,
    pass: &mut P,
    item: ItemId,
) -> Result<u64, CallError>
    requires { IsBetweenCalls shared.now.tables.pages (P.pass pass.old) }
    ensures between { IsBetweenCalls shared.now.tables.pages (P.pass pass.new) }
    ensures made { MatchResult result
        (λ value. Makes (IsItem shared.now.tables.pages.facts.layout item.number)
        (λ steps. IsSystemValue item steps value)
        (handle_of shared.now.header (P.pass pass.new) (P.volume pass.new))
        (handle_of shared.now.header (P.pass pass.old) (P.volume pass.old)))
        (Refuses (IsItem shared.now.tables.pages.facts.layout item.number) (CallError.NoItem item.number)
        (handle_of shared.now.header (P.pass pass.new) (P.volume pass.new))
        (handle_of shared.now.header (P.pass pass.old) (P.volume pass.old))) }
    ensures truly { IfOk result (SystemLoadsTruly (P.pass pass.new) (P.pass pass.old) item) }
{
    looks_leave_their_caller();
    let table = &shared.tables.pages;
    if item.number >= table.layout().items() {
        return Err(CallError::NoItem(item.number));
    }
    Ok(vms_look::system_value(table, pass, item))
}

/// A snapshot of a counter.
pub(crate) fn snapshot<P: Caller>(
    shared: &SharedCounters,
    pass: &mut P,
    counter: CounterId,
) -> Result<u64, CallError>
    requires { IsBetweenCalls shared.now.tables.pages (P.pass pass.old) }
    ensures between { IsBetweenCalls shared.now.tables.pages (P.pass pass.new) }
    ensures made { MatchResult result
        (λ value. Makes (IsCounter shared.now.tables.pages.facts.layout counter.number)
        (λ steps. IsSnapshot shared.now.tables.pages.facts.layout counter steps value)
        (handle_of shared.now.header (P.pass pass.new) (P.volume pass.new))
        (handle_of shared.now.header (P.pass pass.old) (P.volume pass.old)))
        (Refuses (IsCounter shared.now.tables.pages.facts.layout counter.number) (CallError.NoCounter counter.number)
        (handle_of shared.now.header (P.pass pass.new) (P.volume pass.new))
        (handle_of shared.now.header (P.pass pass.old) (P.volume pass.old))) }
    ensures truly { IfOk result (SumsTruly (P.pass pass.new) (P.pass pass.old) counter) }
{
    looks_leave_their_caller();
    let table = &shared.tables.pages;
    if counter.number >= table.layout().counters() {
        return Err(CallError::NoCounter(counter.number));
    }
    Ok(vms_look::snapshot(table, pass, counter))
}

/// Tests whether a zone has more free pages than a watermark asks for.
pub(crate) fn watermark_ok<P: Caller>(
    shared: &SharedCounters,
    pass: &mut P,
    zone: PlaceId,
    mark: WaterMark,
    most: u32,
) -> Result<Verdict, CallError>
    requires { IsBetweenCalls shared.now.tables.pages (P.pass pass.old) }
    ensures between { IsBetweenCalls shared.now.tables.pages (P.pass pass.new) }
    ensures made { MatchResult result
        (λ verdict. Makes (IsZoneTest shared.now.tables.pages.facts.layout zone most)
        (λ steps. IsWatermarkTest shared.now.header zone mark most steps verdict)
        (handle_of shared.now.header (P.pass pass.new) (P.volume pass.new))
        (handle_of shared.now.header (P.pass pass.old) (P.volume pass.old)))
        (RefusesZoneTest (handle_of shared.now.header (P.pass pass.new) (P.volume pass.new))
        (handle_of shared.now.header (P.pass pass.old) (P.volume pass.old)) zone most) }
    ensures near { IfOk result (λ verdict. verdict.fast ≡ true →
        TellsTruly (P.pass pass.new) (P.pass pass.old) zone verdict.free) }
    ensures truly { IfOk result (λ verdict. verdict.yes ≡ true → verdict.fast ≡ true →
        SaysTruly (P.pass pass.new) (P.pass pass.old) zone (limit_of shared.now.header zone.number mark most)) }
    ensures summed { IfOk result (λ verdict. verdict.fast ≡ false →
        SumsTruly (P.pass pass.new) (P.pass pass.old) (free_pages shared.now.tables.pages.facts.layout zone)
        verdict.free) }
{
    looks_leave_their_caller();
    let SharedCounters { header, tables } = shared;
    let table = &tables.pages;
    if zone.number as usize >= table.layout().zones().len() {
        return Err(CallError::NoZone(zone.number));
    }
    if most > 3 {
        return Err(CallError::NoZoneIndex(most));
    }
    Ok(vms_look::watermark_ok(table, pass, header, zone, mark, most))
}

/// Tests whether a zone has more free pages than a watermark asks for and a free block of an order.
pub(crate) fn zone_ok<P: Caller>(
    shared: &SharedCounters,
    pass: &mut P,
    zone: PlaceId,
    mark: WaterMark,
    order: u32,
    most: u32,
) -> Result<OrderVerdict, CallError>
    requires between { IsBetweenCalls shared.now.tables.pages (P.pass pass.old) }
    requires header { IsHeader shared.now.header }
    ensures between { IsBetweenCalls shared.now.tables.pages (P.pass pass.new) }
    ensures made { MatchResult result
        (λ verdict. Makes (IsOrderedTest shared.now.tables.pages.facts.layout zone order most)
        (λ steps. IsOrderTest shared.now.header zone mark most order steps verdict)
        (handle_of shared.now.header (P.pass pass.new) (P.volume pass.new))
        (handle_of shared.now.header (P.pass pass.old) (P.volume pass.old)))
        (RefusesOrderTest (handle_of shared.now.header (P.pass pass.new) (P.volume pass.new))
        (handle_of shared.now.header (P.pass pass.old) (P.volume pass.old)) zone order most) }
    ensures near { IfOk result (λ verdict. verdict.fast ≡ true →
        TellsTruly (P.pass pass.new) (P.pass pass.old) zone verdict.free) }
    ensures truly { IfOk result (λ verdict. verdict.yes ≡ true → verdict.fast ≡ true →
        SaysTruly (P.pass pass.new) (P.pass pass.old) zone (limit_of shared.now.header zone.number mark most)) }
    ensures summed { IfOk result (λ verdict. verdict.fast ≡ false →
        SumsTruly (P.pass pass.new) (P.pass pass.old) (free_pages shared.now.tables.pages.facts.layout zone)
        verdict.free) }
    ensures counts { IfOk result (λ verdict. verdict.yes ≡ true → order ≢ 0 →
        CountsBlocks shared.now.header (P.pass pass.new) (P.pass pass.old) zone order verdict.area) }
{
    looks_leave_their_caller();
    let SharedCounters { header, tables } = shared;
    let table = &tables.pages;
    if zone.number as usize >= table.layout().zones().len() {
        return Err(CallError::NoZone(zone.number));
    }
    if order > 10 {
        return Err(CallError::NoOrder(order));
    }
    if most > 3 {
        return Err(CallError::NoZoneIndex(most));
    }
    Ok(vms_kswapd::zone_ok(table, pass, header, zone, mark, order, most))
}

/// Tests whether a node is balanced for an order.
pub(crate) fn balanced<P: Caller>(
    shared: &SharedCounters,
    pass: &mut P,
    node: PlaceId,
    order: u32,
    most: u32,
) -> Result<Balance, CallError>
    requires between { IsBetweenCalls shared.now.tables.pages (P.pass pass.old) }
    requires header { IsHeader shared.now.header }
    ensures between { IsBetweenCalls shared.now.tables.pages (P.pass pass.new) }
    ensures made { MatchResult result
        (λ balance. Makes (IsNodeTest shared.now.tables.pages.facts.layout node order most)
        (λ steps. IsBalanceTest shared.now.header node order most steps balance)
        (handle_of shared.now.header (P.pass pass.new) (P.volume pass.new))
        (handle_of shared.now.header (P.pass pass.old) (P.volume pass.old)))
        (RefusesNodeTest (handle_of shared.now.header (P.pass pass.new) (P.volume pass.new))
        (handle_of shared.now.header (P.pass pass.old) (P.volume pass.old)) node order most) }
    ensures passed { IfOk result (NamesPassed shared.now.header (P.pass pass.new) (P.pass pass.old) node order most) }
{
    looks_leave_their_caller();
    let SharedCounters { header, tables } = shared;
    let table = &tables.pages;
    check_node(table.layout(), node)?;
    if order > 10 {
        return Err(CallError::NoOrder(order));
    }
    if most > 3 {
        return Err(CallError::NoZoneIndex(most));
    }
    Ok(vms_kswapd::balanced(table, pass, header, node, order, most))
}

/// Whether a place is a node of the layout.
pub(crate) fn check_node(layout: &Layout, node: PlaceId) -> Result<(), CallError>
    ensures { MatchResult result (λ _. IsNode layout.now node.number)
        (λ error. (error ≡ CallError.NoNode node.number) × ¬ IsNode layout.now node.number) }
{
    if (node.number as usize) < layout.zones().len() || node.number >= layout.places() {
        return Err(CallError::NoNode(node.number));
    }
    Ok(())
}
