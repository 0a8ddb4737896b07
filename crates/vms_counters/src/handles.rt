ghost use Rattle.std.specs.Prelude.{◌≡◌, ◌≢◌, true, false, Some, pos, negsuc, IfOk, MatchResult};
ghost use Rattle.vms_base.specs.declared.kinds.Mode.TheVariants.{Dec, Inc, Mod};
ghost use Rattle.vms_calls.specs.Turns.{IsBalanceTest, IsOrderTest};
ghost use Rattle.vms_world.specs.Common.{IsCounter, IsCpu, IsFold, IsItem, IsPlaceValue, IsSnapshot, IsSystemValue};
ghost use Rattle.vms_world.specs.Common.{IsWatermarkTest, free_pages, limit_of};
ghost use Rattle.vms_count.specs.Common.{GoesWith, owns_cpu};
ghost use Rattle.vms_counters.specs.Calls.{Changes, IsNodeTest, IsOrderedTest, IsZoneTest, Makes, Refuses};
ghost use Rattle.vms_counters.specs.Calls.{RefusesChange, RefusesNodeTest, RefusesOrderTest, RefusesZoneTest};
ghost use Rattle.vms_counters.specs.Calls.{layout_of};
ghost use Rattle.vms_counters.specs.Handles.{OnPages};
ghost use Rattle.vms_kswapd.specs.Common.{CountsBlocks, NamesPassed};
ghost use Rattle.vms_look.specs.Common.{LoadsTruly, SaysTruly, SumsTruly, SystemLoadsTruly, TellsTruly};

use crate::errors::CallError;
use crate::looks;
use crate::shared::SharedCounters;
use std::alloc::Global;
use std::marker::Model;
use std::sync::Arc;
use vms_base::{CounterId, CpuId, Header, ItemId, Mode, PlaceId, WaterMark};
use vms_calls::{Balance, OrderVerdict, Verdict};
use vms_tables::CpuPasses;

/// What a thread changes and reads the counters by: it owns a CPU, and may be handed from thread to thread. Contracts
/// see in it which tables it is of, the header, and in each table its pass with what its CPU has changed there since
/// the counters were opened, in absolute sum. Each call makes single atomic steps, whatever other handles do meanwhile,
/// and none takes memory. None waits but those that are given a runtime for it. A refused call makes no step, but for
/// one that tried a lock.
#[derive(Drop)]
pub struct Handle {
    pub(crate) shared: Arc<SharedCounters, Global>,
    pub(crate) cpu: CpuId,
    pub(crate) passes: CpuPasses,
}

impl Model for Handle {
    ghost use Rattle.vms_counters.specs.Handles.{AnyHandle};

    ghost Value = { AnyHandle };

    ghost use Rattle.std.specs.Arc.{arc_value};
    ghost use Rattle.vms_counters.specs.Handles.{IsHandle, handle_of};

    ghost view = { λ h. record {
      tables = (arc_value h.shared).tables;
      page = handle_of (arc_value h.shared).header h.passes.page.pass h.passes.page.volume;
      event = h.passes.event;
      pcpu = h.passes.pcpu;
    } };

    ghost invariant = { λ h. IsHandle (arc_value h.shared).header (arc_value h.shared).tables h.cpu h.passes };
}

impl Handle {
    /// The header of the counters.
    pub fn header(&self) -> &Header
        ensures { result.now ≡ self.now.page.header }
    {
        &self.shared.header
    }

    /// The CPU that the handle owns.
    pub fn cpu(&self) -> CpuId
        ensures { self.now.page.pass.cpu ≡ Some result }
    {
        self.cpu
    }

    /// Changes a counter by a number of pages of 4096 bytes on the handle's CPU (`mod_zone_page_state` and
    /// `mod_node_page_state` of mm/vmstat.c).
    pub fn add(&mut self, counter: CounterId, pages: i64) -> Result<(), CallError>
        ensures made { MatchResult result (λ _. Changes self.new.page self.old.page counter pages Mod)
            (RefusesChange self.new.page self.old.page counter pages) }
        ensures rest { OnPages self.new self.old }
    {
        self.change(counter, pages, Mode::Mod)
    }

    /// Adds a page to a counter. Past the threshold half a threshold more moves to the global value
    /// (`inc_zone_page_state` and `inc_node_page_state` of mm/vmstat.c).
    pub fn inc(&mut self, counter: CounterId) -> Result<(), CallError>
        ensures made { MatchResult result (λ _. Changes self.new.page self.old.page counter (pos 1) Inc)
            (RefusesChange self.new.page self.old.page counter (pos 1)) }
        ensures rest { OnPages self.new self.old }
    {
        self.change(counter, 1, Mode::Inc)
    }

    /// Takes a page from a counter, likewise (`dec_zone_page_state` and `dec_node_page_state` of mm/vmstat.c).
    pub fn dec(&mut self, counter: CounterId) -> Result<(), CallError>
        ensures made { MatchResult result (λ _. Changes self.new.page self.old.page counter (negsuc 0) Dec)
            (RefusesChange self.new.page self.old.page counter (negsuc 0)) }
        ensures rest { OnPages self.new self.old }
    {
        self.change(counter, -1, Mode::Dec)
    }

    fn change(&mut self, counter: CounterId, delta: i64, mode: Mode) -> Result<(), CallError>
        requires { GoesWith mode delta }
        ensures made { MatchResult result (λ _. Changes self.new.page self.old.page counter delta mode)
            (RefusesChange self.new.page self.old.page counter delta) }
        ensures rest { OnPages self.new self.old }
    {
        let table = &self.shared.tables.pages;
        if counter.number >= table.layout().counters() {
            return Err(CallError::NoCounter(counter.number));
        }
        match vms_count::add(table, &mut self.passes.page, counter, delta, mode) {
            Ok(()) => Ok(()),
            Err(overflow) => Err(CallError::TooMuch(overflow)),
        }
    }

    /// Folds a CPU, the handle's own or another: its differentials move to the global values (`cpu_vm_stats_fold` and
    /// `refresh_cpu_vm_stats` of mm/vmstat.c).
    pub fn fold(&mut self, cpu: CpuId) -> Result<(), CallError>
        ensures made { MatchResult result
            (λ _. Makes (IsCpu (layout_of self.old.page) cpu.number)
            (IsFold (layout_of self.old.page) (owns_cpu self.old.page.pass.cpu cpu) cpu) self.new.page self.old.page)
            (Refuses (IsCpu (layout_of self.old.page) cpu.number) (CallError.NoCpu cpu.number) self.new.page
            self.old.page) }
        ensures rest { OnPages self.new self.old }
    {
        looks::fold(&self.shared, &mut self.passes.page, cpu)
    }

    /// The global value of a counter, in pages, and 0 where it is negative (`zone_page_state` of
    /// include/linux/vmstat.h and `node_page_state_pages` of mm/vmstat.c). It is as near the counter's true total at the
    /// moment of its load as the CPUs can hide and as is in flight.
    pub fn value(&mut self, counter: CounterId) -> Result<u64, CallError>
        ensures made { MatchResult result
            (λ value. Makes (IsCounter (layout_of self.old.page) counter.number)
            (λ steps. IsPlaceValue counter steps value) self.new.page self.old.page)
            (Refuses (IsCounter (layout_of self.old.page) counter.number) (CallError.NoCounter counter.number)
            self.new.page self.old.page) }
        ensures truly { IfOk result (LoadsTruly self.new.page.pass self.old.page.pass counter) }
        ensures rest { OnPages self.new self.old }
    {
        looks::value(&self.shared, &mut self.passes.page, counter)
    }

    /// The system-wide value of an item, in pages, and 0 where it is negative (`global_zone_page_state` and
    /// `global_node_page_state_pages` of include/linux/vmstat.h). It is as near the item's true total at the moment of
    /// its load as the CPUs can hide of it and as is in flight of it.
    pub fn system_value(&mut self, item: ItemId) -> Result<u64, CallError>
        ensures made { MatchResult result
            (λ value. Makes (IsItem (layout_of self.old.page) item.number)
            (λ steps. IsSystemValue item steps value) self.new.page self.old.page)
            (Refuses (IsItem (layout_of self.old.page) item.number) (CallError.NoItem item.number)
            self.new.page self.old.page) }
        ensures truly { IfOk result (SystemLoadsTruly self.new.page.pass self.old.page.pass item) }
        ensures rest { OnPages self.new self.old }
    {
        looks::system_value(&self.shared, &mut self.passes.page, item)
    }

    /// The global value of a counter with what the CPUs have not folded yet that are found online, in pages, and 0
    /// where that is negative (`zone_page_state_snapshot` of include/linux/vmstat.h). What is true of it, whatever
    /// others do meanwhile, is said as of `snapshot` of `vms_look`.
    pub fn snapshot(&mut self, counter: CounterId) -> Result<u64, CallError>
        ensures made { MatchResult result
            (λ value. Makes (IsCounter (layout_of self.old.page) counter.number)
            (λ steps. IsSnapshot (layout_of self.old.page) counter steps value) self.new.page self.old.page)
            (Refuses (IsCounter (layout_of self.old.page) counter.number) (CallError.NoCounter counter.number)
            self.new.page self.old.page) }
        ensures truly { IfOk result (SumsTruly self.new.page.pass self.old.page.pass counter) }
        ensures rest { OnPages self.new self.old }
    {
        looks::snapshot(&self.shared, &mut self.passes.page, counter)
    }

    /// Tests whether a zone has more free pages than a watermark asks for, for a request that may use the zones of its
    /// node up to the zone index `most` (`zone_watermark_ok_safe` of mm/page_alloc.c at order 0). What is true of an
    /// answer, whatever others do meanwhile, is said as of `watermark_ok` of `vms_look`.
    pub fn watermark_ok(
        &mut self,
        zone: PlaceId,
        mark: WaterMark,
        most: u32,
    ) -> Result<Verdict, CallError>
        ensures made { MatchResult result
            (λ verdict. Makes (IsZoneTest (layout_of self.old.page) zone most)
            (λ steps. IsWatermarkTest self.old.page.header zone mark most steps verdict) self.new.page self.old.page)
            (RefusesZoneTest self.new.page self.old.page zone most) }
        ensures near { IfOk result (λ verdict. verdict.fast ≡ true →
            TellsTruly self.new.page.pass self.old.page.pass zone verdict.free) }
        ensures truly { IfOk result (λ verdict. verdict.yes ≡ true → verdict.fast ≡ true →
            SaysTruly self.new.page.pass self.old.page.pass zone
            (limit_of self.old.page.header zone.number mark most)) }
        ensures summed { IfOk result (λ verdict. verdict.fast ≡ false →
            SumsTruly self.new.page.pass self.old.page.pass (free_pages (layout_of self.old.page) zone) verdict.free) }
        ensures rest { OnPages self.new self.old }
    {
        looks::watermark_ok(&self.shared, &mut self.passes.page, zone, mark, most)
    }

    /// Tests whether a zone has more free pages than a watermark asks for and, above order 0, a free block of
    /// `2^order` pages or more (`__zone_watermark_ok` of mm/page_alloc.c). Blocks are looked for in the zone items
    /// `area1` to `area10` that the header declares. What is true of an answer is said as of `zone_ok` of
    /// `vms_kswapd`.
    pub fn zone_ok(
        &mut self,
        zone: PlaceId,
        mark: WaterMark,
        order: u32,
        most: u32,
    ) -> Result<OrderVerdict, CallError>
        ensures made { MatchResult result
            (λ verdict. Makes (IsOrderedTest (layout_of self.old.page) zone order most)
            (λ steps. IsOrderTest self.old.page.header zone mark most order steps verdict) self.new.page self.old.page)
            (RefusesOrderTest self.new.page self.old.page zone order most) }
        ensures near { IfOk result (λ verdict. verdict.fast ≡ true →
            TellsTruly self.new.page.pass self.old.page.pass zone verdict.free) }
        ensures truly { IfOk result (λ verdict. verdict.yes ≡ true → verdict.fast ≡ true →
            SaysTruly self.new.page.pass self.old.page.pass zone
            (limit_of self.old.page.header zone.number mark most)) }
        ensures summed { IfOk result (λ verdict. verdict.fast ≡ false →
            SumsTruly self.new.page.pass self.old.page.pass (free_pages (layout_of self.old.page) zone) verdict.free) }
        ensures counts { IfOk result (λ verdict. verdict.yes ≡ true → order ≢ 0 →
            CountsBlocks self.old.page.header self.new.page.pass self.old.page.pass zone order verdict.area) }
        ensures rest { OnPages self.new self.old }
    {
        looks::zone_ok(&self.shared, &mut self.passes.page, zone, mark, order, most)
    }

    /// Tests whether a node is balanced for an order (`pgdat_balanced` of mm/vmscan.c): its zones up to the zone index
    /// `most` are tested in order by their `high` watermark, up to the first that passes. What is true of a yes is said
    /// as of `balanced` of `vms_kswapd`.
    pub fn balanced(&mut self, node: PlaceId, order: u32, most: u32) -> Result<Balance, CallError>
        ensures made { MatchResult result
            (λ balance. Makes (IsNodeTest (layout_of self.old.page) node order most)
            (λ steps. IsBalanceTest self.old.page.header node order most steps balance) self.new.page self.old.page)
            (RefusesNodeTest self.new.page self.old.page node order most) }
        ensures passed { IfOk result (NamesPassed self.old.page.header self.new.page.pass self.old.page.pass node order
            most) }
        ensures rest { OnPages self.new self.old }
    {
        looks::balanced(&self.shared, &mut self.passes.page, node, order, most)
    }
}
