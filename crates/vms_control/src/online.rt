ghost use Rattle.std.specs.Prelude.{◌≡◌, ℕ, ◌<◌, ◌≤◌, ◌++◌, [], ◌∷◌, List, length};
ghost use Rattle.vms_calls.specs.Common.{CpuState, is_online as tells_online, online_from, in_turn, state_steps, pages};
ghost use Rattle.vms_control.specs.Online.{FoundOnline};
ghost use Rattle.vms_seats.specs.Common.{IsFrom, Made};

use std::marker::Model;
use vms_base::{CpuId, CpuState};
use vms_words::{Caller, ControlPass, PageTable};

/// As many CPUs as a layout has at most.
const MOST_CPUS: usize = 128;

/// The CPUs that a call found online, in ascending order.
#[derive(Debug, Drop)]
pub(crate) struct OnlineCpus {
    cpus: [CpuId; MOST_CPUS],
    count: usize,
}

impl Model for OnlineCpus {
    ghost use Rattle.std.specs.Prelude.{List, ◌≤◌, take};
    ghost use Rattle.vms_calls.specs.Common.{CpuId};

    ghost Value = { List CpuId };

    ghost view = { λ online. take online.count online.cpus };

    ghost invariant = { λ online. online.count ≤ 128 };
}

impl OnlineCpus {
    fn none() -> OnlineCpus
        ensures { result ≡ [] }
    {
        OnlineCpus {
            cpus: [CpuId { number: 0 }; MOST_CPUS],
            count: 0,
        }
    }

    fn push(&mut self, cpu: CpuId)
        requires { length self.old < 128 }
        ensures { self.new ≡ self.old ++ (cpu ∷ []) }
    {
        self.cpus[self.count] = cpu;
        self.count += 1;
    }

    #[inline]
    pub(crate) fn as_slice(&self) -> &[CpuId]
        ensures value { result.now ≡ self.now }
        ensures most { length result.now ≤ 128 }
    {
        &self.cpus[..self.count]
    }
}

/// Looks which CPUs are online.
pub(crate) fn load_online(table: &PageTable, pass: &mut ControlPass) -> OnlineCpus
    requires table { IsFrom pass.old table.now }
    ensures made { (states : List CpuState) × (length states ≡ table.now.facts.layout.cpus)
        × (result ≡ online_from 0 states) × Made pages pass.new pass.old (in_turn state_steps 0 states) }
    ensures found { FoundOnline table.now.facts result }
{
    pass.is_live();
    let mut online = OnlineCpus::none();
    for number in 0..table.layout().cpus() {
        let cpu = CpuId { number };
        if is_online(table.load_state(pass, cpu)) {
            online.push(cpu);
        }
    }
    online
}

#[inline]
fn is_online(state: CpuState) -> bool
    ensures { result ≡ tells_online state }
{
    match state {
        CpuState::Online => true,
        CpuState::Dead | CpuState::Absent => false,
    }
}
