ghost use Rattle.std.specs.Prelude.{◌≡◌, ◌≢◌, true, false, IfOk, MatchResult};
ghost use Rattle.vms_world.specs.Common.{IsNode, ByNormal, ByPressure, IsTurn, Refreshes, SetsNormal, SetsPressure};
ghost use Rattle.vms_world.specs.Common.{IsCounter, IsCpu, IsFold, IsItem, IsPlaceValue, IsSnapshot, IsSystemValue};
ghost use Rattle.vms_world.specs.Common.{IsWatermarkTest, free_pages, limit_of};
ghost use Rattle.vms_calls.specs.Turns.{IsBalanceTest, IsOrderTest};
ghost use Rattle.vms_control.specs.SettledMarks.{SettlesAll, SettlesNode};
ghost use Rattle.vms_count.specs.Common.{owns_cpu};
ghost use Rattle.vms_counters.specs.Calls.{IsNodeTest, IsOrderedTest, IsZoneTest, Makes, Refuses, RefusesNodeTest};
ghost use Rattle.vms_counters.specs.Calls.{RefusesOrderTest, RefusesRating, RefusesRefresh, RefusesTurn};
ghost use Rattle.vms_counters.specs.Calls.{RefusesZoneTest, layout_of};
ghost use Rattle.vms_counters.specs.Handles.{OnPages};
ghost use Rattle.vms_kswapd.specs.Common.{CountsBlocks, NamesPassed};
ghost use Rattle.vms_look.specs.Common.{LoadsTruly, SaysTruly, SumsTruly, SystemLoadsTruly, TellsTruly};

use crate::errors::CallError;
use crate::shared::SharedCounters;
use crate::{looks, rating};
use std::alloc::Global;
use std::marker::Model;
use std::sync::Arc;
use vms_base::{CounterId, CpuId, Header, ItemId, PlaceId, WaterMark};
use vms_burial::ControlPasses;
use vms_calc::{Rule, Rules};
use vms_calls::{Balance, OrderVerdict, Verdict};

/// The handle by which thresholds are set. It owns no CPU.
#[derive(Drop)]
pub struct ControlHandle {
    pub(crate) shared: Arc<SharedCounters, Global>,
    pub(crate) passes: ControlPasses,
}

impl Model for ControlHandle {
    ghost use Rattle.vms_counters.specs.Handles.{AnyHandle};

    ghost Value = { AnyHandle };

    ghost use Rattle.std.specs.Arc.{arc_value};
    ghost use Rattle.vms_counters.specs.Handles.{IsControlHandle, control_of};

    ghost view = { λ h. control_of (arc_value h.shared).header (arc_value h.shared).tables h.passes };

    ghost invariant = { λ h. IsControlHandle (arc_value h.shared).header (arc_value h.shared).tables h.passes };
}

impl ControlHandle {
    /// The header of the counters.
    pub fn header(&self) -> &Header
        ensures { result.now ≡ self.now.page.header }
    {
        &self.shared.header
    }

    /// Folds a CPU: its differentials move to the global values (`cpu_vm_stats_fold` of mm/vmstat.c).
    pub fn fold(&mut self, cpu: CpuId) -> Result<(), CallError>
        ensures made { MatchResult result
            (λ _. Makes (IsCpu (layout_of self.old.page) cpu.number)
            (IsFold (layout_of self.old.page) (owns_cpu self.old.page.pass.cpu cpu) cpu) self.new.page self.old.page)
            (Refuses (IsCpu (layout_of self.old.page) cpu.number) (CallError.NoCpu cpu.number) self.new.page
            self.old.page) }
        ensures rest { OnPages self.new self.old }
    {
        looks::fold(&self.shared, &mut self.passes.page, cpu)
    }

    /// The global value of a counter, in pages, and 0 where it is negative (`zone_page_state` of
    /// include/linux/vmstat.h and `node_page_state_pages` of mm/vmstat.c). It is as near the counter's true total at the
    /// moment of its load as the CPUs can hide and as is in flight.
    pub fn value(&mut self, counter: CounterId) -> Result<u64, CallError>
        ensures made { MatchResult result
            (λ value. Makes (IsCounter (layout_of self.old.page) counter.number)
            (λ steps. IsPlaceValue counter steps value) self.new.page self.old.page)
            (Refuses (IsCounter (layout_of self.old.page) counter.number) (CallError.NoCounter counter.number)
            self.new.page self.old.page) }
        ensures truly { IfOk result (LoadsTruly self.new.page.pass self.old.page.pass counter) }
        ensures rest { OnPages self.new self.old }
    {
        looks::value(&self.shared, &mut self.passes.page, counter)
    }

    /// The system-wide value of an item, in pages, and 0 where it is negative (`global_zone_page_state` and
    /// `global_node_page_state_pages` of include/linux/vmstat.h). It is as near the item's true total at the moment of
    /// its load as the CPUs can hide of it and as is in flight of it.
    pub fn system_value(&mut self, item: ItemId) -> Result<u64, CallError>
        ensures made { MatchResult result
            (λ value. Makes (IsItem (layout_of self.old.page) item.number)
            (λ steps. IsSystemValue item steps value) self.new.page self.old.page)
            (Refuses (IsItem (layout_of self.old.page) item.number) (CallError.NoItem item.number)
            self.new.page self.old.page) }
        ensures truly { IfOk result (SystemLoadsTruly self.new.page.pass self.old.page.pass item) }
        ensures rest { OnPages self.new self.old }
    {
        looks::system_value(&self.shared, &mut self.passes.page, item)
    }

    /// The global value of a counter with what the CPUs have not folded yet that are found online, in pages, and 0
    /// where that is negative (`zone_page_state_snapshot` of include/linux/vmstat.h). What is true of it, whatever
    /// others do meanwhile, is said as of `snapshot` of `vms_look`.
    pub fn snapshot(&mut self, counter: CounterId) -> Result<u64, CallError>
        ensures made { MatchResult result
            (λ value. Makes (IsCounter (layout_of self.old.page) counter.number)
            (λ steps. IsSnapshot (layout_of self.old.page) counter steps value) self.new.page self.old.page)
            (Refuses (IsCounter (layout_of self.old.page) counter.number) (CallError.NoCounter counter.number)
            self.new.page self.old.page) }
        ensures truly { IfOk result (SumsTruly self.new.page.pass self.old.page.pass counter) }
        ensures rest { OnPages self.new self.old }
    {
        looks::snapshot(&self.shared, &mut self.passes.page, counter)
    }

    /// Tests whether a zone has more free pages than a watermark asks for, for a request that may use the zones of its
    /// node up to the zone index `most` (`zone_watermark_ok_safe` of mm/page_alloc.c at order 0). What is true of an
    /// answer, whatever others do meanwhile, is said as of `watermark_ok` of `vms_look`.
    pub fn watermark_ok(
        &mut self,
        zone: PlaceId,
        mark: WaterMark,
        most: u32,
    ) -> Result<Verdict, CallError>
        ensures made { MatchResult result
            (λ verdict. Makes (IsZoneTest (layout_of self.old.page) zone most)
            (λ steps. IsWatermarkTest self.old.page.header zone mark most steps verdict) self.new.page self.old.page)
            (RefusesZoneTest self.new.page self.old.page zone most) }
        ensures near { IfOk result (λ verdict. verdict.fast ≡ true →
            TellsTruly self.new.page.pass self.old.page.pass zone verdict.free) }
        ensures truly { IfOk result (λ verdict. verdict.yes ≡ true → verdict.fast ≡ true →
            SaysTruly self.new.page.pass self.old.page.pass zone
            (limit_of self.old.page.header zone.number mark most)) }
        ensures summed { IfOk result (λ verdict. verdict.fast ≡ false →
            SumsTruly self.new.page.pass self.old.page.pass (free_pages (layout_of self.old.page) zone) verdict.free) }
        ensures rest { OnPages self.new self.old }
    {
        looks::watermark_ok(&self.shared, &mut self.passes.page, zone, mark, most)
    }

    /// Tests whether a zone has more free pages than a watermark asks for and, above order 0, a free block of
    /// `2^order` pages or more (`__zone_watermark_ok` of mm/page_alloc.c). Blocks are looked for in the zone items
    /// `area1` to `area10` that the header declares. What is true of an answer is said as of `zone_ok` of
    /// `vms_kswapd`.
    pub fn zone_ok(
        &mut self,
        zone: PlaceId,
        mark: WaterMark,
        order: u32,
        most: u32,
    ) -> Result<OrderVerdict, CallError>
        ensures made { MatchResult result
            (λ verdict. Makes (IsOrderedTest (layout_of self.old.page) zone order most)
            (λ steps. IsOrderTest self.old.page.header zone mark most order steps verdict) self.new.page self.old.page)
            (RefusesOrderTest self.new.page self.old.page zone order most) }
        ensures near { IfOk result (λ verdict. verdict.fast ≡ true →
            TellsTruly self.new.page.pass self.old.page.pass zone verdict.free) }
        ensures truly { IfOk result (λ verdict. verdict.yes ≡ true → verdict.fast ≡ true →
            SaysTruly self.new.page.pass self.old.page.pass zone
            (limit_of self.old.page.header zone.number mark most)) }
        ensures summed { IfOk result (λ verdict. verdict.fast ≡ false →
            SumsTruly self.new.page.pass self.old.page.pass (free_pages (layout_of self.old.page) zone) verdict.free) }
        ensures counts { IfOk result (λ verdict. verdict.yes ≡ true → order ≢ 0 →
            CountsBlocks self.old.page.header self.new.page.pass self.old.page.pass zone order verdict.area) }
        ensures rest { OnPages self.new self.old }
    {
        looks::zone_ok(&self.shared, &mut self.passes.page, zone, mark, order, most)
    }

    /// Tests whether a node is balanced for an order (`pgdat_balanced` of mm/vmscan.c): its zones up to the zone index
    /// `most` are tested in order by their `high` watermark, up to the first that passes. What is true of a yes is said
    /// as of `balanced` of `vms_kswapd`.
    pub fn balanced(&mut self, node: PlaceId, order: u32, most: u32) -> Result<Balance, CallError>
        ensures made { MatchResult result
            (λ balance. Makes (IsNodeTest (layout_of self.old.page) node order most)
            (λ steps. IsBalanceTest self.old.page.header node order most steps balance) self.new.page self.old.page)
            (RefusesNodeTest self.new.page self.old.page node order most) }
        ensures passed { IfOk result (NamesPassed self.old.page.header self.new.page.pass self.old.page.pass node order
            most) }
        ensures rest { OnPages self.new self.old }
    {
        looks::balanced(&self.shared, &mut self.passes.page, node, order, most)
    }

    /// Sets the pressure thresholds of a node's zones, under marks that cover them (`set_pgdat_percpu_threshold` of
    /// mm/vmstat.c with `calculate_pressure_threshold`). A zone whose mark is 0 keeps its thresholds. Which marks stand
    /// after it is said as of `set_pressure` of `vms_control`.
    pub fn set_pressure<N: Rule, P: Rule>(
        &mut self,
        rules: &Rules<N, P>,
        node: PlaceId,
    ) -> Result<(), CallError>
        ensures made { MatchResult result
            (λ _. Makes (IsNode (layout_of self.old.page) node.number)
            (λ steps. SetsPressure self.old.page.pass.facts (P.answers rules.now.pressure) (N.answers rules.now.normal)
            node
            self.old.page.pass.number self.old.page.pass.seen steps) self.new.page self.old.page)
            (RefusesRating 0 self.new.page self.old.page node) }
        ensures marks { IfOk result (λ _. SettlesNode self.old.page.pass.facts (ByPressure (P.answers
            rules.now.pressure)
            (N.answers rules.now.normal)) node self.new.page.pass self.old.page.pass) }
        ensures rest { OnPages self.new self.old }
    {
        rating::set_pressure(&self.shared, &mut self.passes.page, rules, node)
    }

    /// Sets the normal thresholds of a node's zones again, likewise (`set_pgdat_percpu_threshold` of mm/vmstat.c with
    /// `calculate_normal_threshold`).
    pub fn set_normal<N: Rule, P: Rule>(
        &mut self,
        rules: &Rules<N, P>,
        node: PlaceId,
    ) -> Result<(), CallError>
        ensures made { MatchResult result
            (λ _. Makes (IsNode (layout_of self.old.page) node.number)
            (λ steps. SetsNormal self.old.page.pass.facts (N.answers rules.now.normal) node self.old.page.pass.number
            self.old.page.pass.seen steps) self.new.page self.old.page)
            (RefusesRating 0 self.new.page self.old.page node) }
        ensures marks { IfOk result (λ _. SettlesNode self.old.page.pass.facts (ByNormal (N.answers rules.now.normal))
            node
            self.new.page.pass self.old.page.pass) }
        ensures rest { OnPages self.new self.old }
    {
        rating::set_normal(&self.shared, &mut self.passes.page, rules, node)
    }

    /// Gives each zone its normal threshold, under a mark that covers it, and each node the largest of its zones
    /// (`refresh_zone_stat_thresholds` of mm/vmstat.c).
    pub fn refresh_thresholds<N: Rule, P: Rule>(
        &mut self,
        rules: &Rules<N, P>,
    ) -> Result<(), CallError>
        ensures made { MatchResult result
            (λ _. Makes (Unit {0})
            (λ steps. Refreshes self.old.page.pass.facts (N.answers rules.now.normal) self.old.page.pass.number
            self.old.page.pass.seen steps) self.new.page self.old.page)
            (RefusesRefresh self.new.page self.old.page) }
        ensures marks { IfOk result (λ _. SettlesAll self.old.page.pass.facts (N.answers rules.now.normal)
            self.new.page.pass
            self.old.page.pass) }
        ensures rest { OnPages self.new self.old }
    {
        rating::refresh_thresholds(&self.shared, &mut self.passes.page, rules)
    }

    /// Takes a turn of kswapd on a node: it sets pressure thresholds, tests whether the node is balanced, and sets
    /// normal thresholds if it is (`kswapd_try_to_sleep` of mm/vmscan.c).
    pub fn kswapd_turn<N: Rule, P: Rule>(
        &mut self,
        rules: &Rules<N, P>,
        node: PlaceId,
        order: u32,
        most: u32,
    ) -> Result<Balance, CallError>
        ensures made { MatchResult result
            (λ balance. Makes (IsNodeTest (layout_of self.old.page) node order most)
            (λ steps. IsTurn self.old.page.header self.old.page.pass.facts.base (P.answers rules.now.pressure)
            (N.answers rules.now.normal) node order most self.old.page.pass.number self.old.page.pass.seen steps
            balance)
            self.new.page self.old.page)
            (RefusesTurn self.new.page self.old.page node order most) }
        ensures passed { IfOk result (NamesPassed self.old.page.header self.new.page.pass self.old.page.pass node order
            most) }
        ensures rest { OnPages self.new self.old }
    {
        rating::kswapd_turn(
            &self.shared,
            &mut self.passes.page,
            rules,
            node,
            order,
            most,
        )
    }
}
