ghost use Rattle.std.specs.Prelude.{◌≡◌};
ghost use Rattle.vms_world.specs.Acts.{event_call, page_call, pcpu_call};

use vms_base::Mode;
use vms_calls::PageCall;
use vms_event_core::EventCall;
use vms_pcpu_core::PcpuCall;
use vms_text::{Act, Lane};

/// The call that an act of a lane makes on the page counters, if it makes one.
#[inline]
pub fn page_call(lane: Lane, act: Act) -> Option<PageCall>
    ensures { result ≡ page_call lane act }
{
    match (lane, act) {
        (_, Act::Fold(cpu)) => Some(PageCall::Fold(cpu)),
        (_, Act::Water(zone, mark, most)) => Some(PageCall::Test(zone, mark, most)),
        (_, Act::Val(counter)) => Some(PageCall::Value(counter)),
        (_, Act::Snap(counter)) => Some(PageCall::Snapshot(counter)),
        (_, Act::Sys(item)) => Some(PageCall::System(item)),
        (Lane::Cpu(_), Act::Mod(counter, pages)) => {
            Some(PageCall::Change(counter, pages, Mode::Mod))
        }
        (Lane::Cpu(_), Act::Inc(counter)) => Some(PageCall::Change(counter, 1, Mode::Inc)),
        (Lane::Cpu(_), Act::Dec(counter)) => Some(PageCall::Change(counter, -1, Mode::Dec)),
        (Lane::Control, Act::Pressure(node)) => Some(PageCall::SetPressure(node)),
        (Lane::Control, Act::Normal(node)) => Some(PageCall::SetNormal(node)),
        (Lane::Control, Act::Dead(cpu)) => Some(PageCall::Bury(cpu)),
        (Lane::Control, Act::Kswapd(node, order, most)) => Some(PageCall::Turn(node, order, most)),
        _ => None,
    }
}

/// The call that an act of a lane makes on the event counters, if it makes one.
#[inline]
pub fn event_call(lane: Lane, act: Act) -> Option<EventCall>
    ensures { result ≡ event_call lane act }
{
    match (lane, act) {
        (_, Act::EvSum(event)) => Some(EventCall::Sum(event)),
        (Lane::Cpu(_), Act::Ev(event, n)) => Some(EventCall::Count(event, n)),
        (Lane::Control, Act::Dead(cpu)) => Some(EventCall::FoldDead(cpu)),
        _ => None,
    }
}

/// The call that an act of a lane makes on the percpu counters, if it makes one.
pub fn pcpu_call(lane: Lane, act: Act) -> Option<PcpuCall>
    ensures { result ≡ pcpu_call lane act }
{
    match (lane, act) {
        (Lane::Cpu(_), Act::Cnt(counter, amount)) => Some(PcpuCall::Add(counter, amount)),
        (Lane::Cpu(_), Act::Lim(counter, limit, amount)) => {
            Some(PcpuCall::LimitedAdd(counter, limit, amount))
        }
        (Lane::Cpu(_), Act::Cmp(counter, rhs)) => Some(PcpuCall::Compare(counter, rhs)),
        (Lane::Cpu(_), Act::Sum(counter)) => Some(PcpuCall::Sum(counter)),
        (Lane::Cpu(_), Act::Rough(counter)) => Some(PcpuCall::Read(counter)),
        (Lane::Cpu(_), Act::Csync(counter)) => Some(PcpuCall::Sync(counter)),
        (Lane::Control, Act::Dead(cpu)) => Some(PcpuCall::FoldDead(cpu)),
        _ => None,
    }
}
