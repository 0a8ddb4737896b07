ghost use Rattle.std.specs.Prelude.{◌≡◌};
ghost use Rattle.vms_world.specs.Common.{owner_of};

use crate::laws::event_laws;
use std::marker::Model;
use vms_base::{CpuId, CpuState, Header, Row};
use vms_calc::{Rule, Rules};
use vms_calls::{PageAnswer, PageCall};
use vms_core::{Plain, State};
use vms_event_core::{EventAnswer, EventCall, EventState};
use vms_pcpu_core::{PcpuAnswer, PcpuCall, PcpuState};
use vms_plain_control::Peaks;
use vms_text::Lane;

/// The counters of the three tables in an open phase as plain data, on which each call makes the act of a line. A call
/// takes the rules by which the phase sets thresholds, since they are part of what its lines mean.
#[derive(Debug, Drop)]
pub struct PlainTables {
    pub(crate) pages: Plain,
    pub(crate) events: EventState,
    pub(crate) counters: PcpuState,
    pub(crate) peaks: Peaks,
    /// The states of the CPUs with which the phase began.
    pub(crate) opening: Row<CpuState>,
}

impl Model for PlainTables {
    ghost use Rattle.vms_plain_lines.specs.PlainStates.{PlainStates};

    ghost Value = { PlainStates };

    ghost view = { λ tables. record {
      pages = tables.pages;
      events = tables.events;
      counters = tables.counters;
      peaks = tables.peaks;
      opening = tables.opening;
    } };
}

impl PlainTables {
    ghost use Rattle.std.specs.Prelude.{◌≡◌, ◌≢◌, map, false, Some};
    ghost use Rattle.vms_calls.specs.PageCalls.{asks_rules};
    ghost use Rattle.vms_calls.specs.declared.page_calls.PageCall.TheVariants.{Bury};
    ghost use Rattle.vms_world.specs.Common.{Header, IsHeader, IsPlainBase, LeavesVolume, line_of, spent_on_pcpu};
    ghost use Rattle.vms_world.specs.Common.{volume, Item, Cpu, event_call, page_call, pcpu_call, owner_of};
    ghost use Rattle.vms_answers.specs.Common.{event_told, page_told, pcpu_told};
    ghost use Rattle.vms_plain_control.specs.Common.{HasAllPeaks};
    ghost use Rattle.vms_plain_control.specs.PageCalls.{AnswersPageCall, FitsPageCall, HasAllForCall};
    ghost use Rattle.vms_plain_events.specs.Common.{FitsCall, MakesCall};
    ghost use Rattle.vms_plain_lines.specs.EventRooms.{HaveRoomForEvents};
    ghost use Rattle.vms_plain_lines.specs.PageRooms.{HaveRoomForPages};
    ghost use Rattle.vms_plain_lines.specs.PlainStates.{GoesOnIf};
    ghost use Rattle.vms_plain_pcpu.specs.Common.{AnswersCall, HasLocalsForCall, HasRoomForCall, with_call};
    ghost use Rattle.vms_text.specs.declared.acts.Act.TheVariants.{Dead};

    /// The tables with these counters and peaks, in a phase that begins with CPUs in these states.
    pub fn make(
        pages: State,
        events: EventState,
        counters: PcpuState,
        peaks: Peaks,
        opening: Row<CpuState>,
    ) -> PlainTables
        requires { IsPlainBase pages }
        ensures { result ≡ record {
          pages = pages;
          events = events;
          counters = counters;
          peaks = peaks;
          opening = opening;
        } }
    {
        PlainTables {
            pages: Plain::make(pages),
            events,
            counters,
            peaks,
            opening,
        }
    }

    /// Makes the call of a line of this lane on the page counters, and returns its answer. A call that sets no
    /// threshold leaves the peaks. A burial makes calls on the other tables too, so the line goes on by `bury` alone.
    pub fn call_pages<N: Rule, P: Rule>(
        &mut self,
        rules: &Rules<N, P>,
        header: &Header,
        lane: Lane,
        call: PageCall,
    ) -> PageAnswer
        requires fits { FitsPageCall header.now call (owner_of lane) self.old.pages }
        requires has { HasAllForCall header.now call self.old.pages self.old.peaks }
        ensures answers { AnswersPageCall header.now call (owner_of lane) self.old.pages self.new.pages result }
        ensures after { self.new ≡ record self.old { pages = self.new.pages; peaks = self.new.peaks } }
        ensures full { HasAllPeaks header.now.layout self.old.peaks → HasAllPeaks header.now.layout self.new.peaks }
        ensures leaves { asks_rules call ≡ false → self.new.peaks ≡ self.old.peaks }
        ensures goes_on { IsHeader header.now → (item : Item) → item.lane ≡ lane → page_call lane item.act ≡ Some call →
            ((c : CpuId) → call ≢ Bury c) → GoesOnIf header.now (P.answers rules.now.pressure)
            (N.answers rules.now.normal) item (HaveRoomForPages lane call) self.old self.new (page_told result) }
    {
        let owner = owner_of(lane);
        vms_plain_control::call(&mut self.pages, &mut self.peaks, header, rules, owner, call)
    }

    /// Makes the call of a line of this lane on the event counters, and returns its answer. The CPUs are in the states
    /// with which the phase began.
    pub fn call_events<N: Rule, P: Rule>(
        &mut self,
        rules: &Rules<N, P>,
        lane: Lane,
        call: EventCall,
    ) -> EventAnswer
        requires fits { FitsCall self.old.opening (owner_of lane) call self.old.events }
        ensures makes { MakesCall self.old.opening (owner_of lane) call self.old.events self.new.events result }
        ensures after { self.new ≡ record self.old { events = self.new.events } }
        ensures goes_on { (header : Header) (item : Item) → item.lane ≡ lane → event_call lane item.act ≡ Some call →
            ((c : CpuId) → item.act ≢ Dead c) → GoesOnIf header (P.answers rules.now.pressure)
            (N.answers rules.now.normal) item (HaveRoomForEvents lane call) self.old self.new (event_told result) }
    {
        event_laws();
        rules.tells();
        vms_plain_events::call(
            &mut self.events,
            self.opening.as_slice(),
            owner_of(lane),
            call,
        )
    }

    /// Makes a call on the percpu counters on a CPU, and answers it. The CPUs that were present when the phase began
    /// hold the local parts.
    pub fn make_pcpu_call<N: Rule, P: Rule>(
        &mut self,
        rules: &Rules<N, P>,
        cpu: CpuId,
        call: PcpuCall,
    ) -> PcpuAnswer
        requires room { HasRoomForCall self.old.counters call }
        requires locals { HasLocalsForCall self.old.counters self.old.opening cpu call }
        ensures after { self.new ≡ record self.old {
          counters = with_call self.old.opening cpu call result self.old.counters;
        } }
        ensures answers { AnswersCall self.old.counters self.old.opening call result }
        ensures goes_on { (header : Header) (item : Item) → item.lane ≡ Cpu cpu →
            pcpu_call (Cpu cpu) item.act ≡ Some call →
            GoesOnIf header (P.answers rules.now.pressure) (N.answers rules.now.normal) item
            (λ items. LeavesVolume (λ j. volume (spent_on_pcpu j) cpu.number (map line_of items)) call) self.old
            self.new (pcpu_told result) }
    {
        rules.tells();
        let states = self.opening.as_slice();
        vms_plain_pcpu::call(&mut self.counters, states, cpu, call)
    }
}

/// The CPU that the pass of a lane owns.
#[inline]
fn owner_of(lane: Lane) -> Option<CpuId>
    ensures { result ≡ owner_of lane }
{
    match lane {
        Lane::Cpu(cpu) => Some(cpu),
        Lane::Control => None,
    }
}
