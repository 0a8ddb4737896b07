ghost use Rattle.std.specs.Prelude.{◌≡◌, ℕ, List};
ghost use Rattle.vms_history.specs.Common.{is_online as tells_online, IsCpu};
ghost use Rattle.vms_event_core.specs.declared.steps.EventStep.{EventStep};
ghost use Rattle.vms_event_core.specs.declared.steps.EventStep.TheVariants.{LoadE};
ghost use Rattle.vms_event_core.specs.Common.{IsAllEvents, online_cpus, events, IsEvent};
ghost use Rattle.vms_seats.specs.Common.{IsFrom, Made, MadeOne};

use crate::passes::EventCaller;
use crate::places::place;
use crate::tables::EventTable;
use vms_base::{CpuId, CpuState, EventId};
use vms_event_core::EventStep;

impl EventTable {
    /// What the CPUs that are online have counted of an event (`all_vm_events` of mm/vmstat.c), each word as it is when
    /// it is loaded.
    pub fn all_events<P: EventCaller>(&self, pass: &mut P, event: EventId) -> u64
        requires table { IsFrom (P.pass pass.old) self.now }
        requires event { IsEvent event.number }
        ensures made { (found : List ℕ) × (steps : List EventStep)
            × IsAllEvents (online_cpus self.now.facts) event found steps result
            × Made events (P.pass pass.new) (P.pass pass.old) steps }
        ensures volume { P.volume pass.new ≡ P.volume pass.old }
    {
        pass.is_live();
        let mut sum = 0;
        for (number, state) in self.cpus.as_slice().iter().enumerate() {
            let cpu = CpuId {
                number: number as u32,
            };
            if is_online(*state) {
                sum += self.load_word(pass, cpu, event);
            }
        }
        sum
    }

    #[inline]
    fn load_word<P: EventCaller>(&self, pass: &mut P, cpu: CpuId, event: EventId) -> u64
        requires table { IsFrom (P.pass pass.old) self.now }
        requires cpu { IsCpu self.now.facts.layout cpu.number }
        requires event { IsEvent event.number }
        ensures made { MadeOne events (P.pass pass.new) (P.pass pass.old) (LoadE cpu event result) }
        ensures volume { P.volume pass.new ≡ P.volume pass.old }
    {
        pass.load(
            &self.words,
            place(cpu, event),
            &EventStep::LoadE(cpu, event, 0),
        )
    }
}

#[inline]
pub(crate) fn is_online(state: CpuState) -> bool
    ensures { result ≡ tells_online state }
{
    match state {
        CpuState::Online => true,
        CpuState::Dead | CpuState::Absent => false,
    }
}
