ghost use Rattle.std.specs.Prelude.{◌≡◌, ◌^◌, false};
ghost use Rattle.vms_calls.specs.Common.{IsHeader};
ghost use Rattle.vms_calls.specs.PageCalls.{asks_rules, owns_cpu};
ghost use Rattle.vms_calls.specs.declared.page_calls.PageAnswer.TheVariants.{Done};
ghost use Rattle.vms_calls.specs.declared.page_calls.PageCall.TheVariants.{Change};
ghost use Rattle.vms_plain_pages.specs.Common.{IsSmallState};
ghost use Rattle.vms_plain_control.specs.KnownPeaks.{HasAllPeaks};
ghost use Rattle.vms_plain_control.specs.PageCalls.{AnswersPageCall, FitsPageCall, HasAllForCall, MakesPageCall};

use crate::{Peaks, bury, set_normal, set_pressure, turn};
use vms_base::{CounterId, CpuId, Header, Mode};
use vms_calc::{Rule, Rules};
use vms_calls::{PageAnswer, PageCall};
use vms_core::Plain;
use vms_plain_pages::{fold, place_value, snapshot, system_value, watermark_test};

/// Makes a call of a caller that owns a CPU, or none, and returns its answer. A call that sets no threshold leaves the
/// peaks, and asks nothing of them.
pub fn call<N: Rule, P: Rule>(
    pages: &mut Plain,
    peaks: &mut Peaks,
    header: &Header,
    rules: &Rules<N, P>,
    owner: Option<CpuId>,
    call: PageCall,
) -> PageAnswer
    requires fits { FitsPageCall header.now call owner pages.old }
    requires has { HasAllForCall header.now call pages.old peaks.old }
    ensures makes { MakesPageCall header.now (P.answers rules.now.pressure) (N.answers rules.now.normal) call owner
        result pages.old peaks.old pages.new peaks.new }
    ensures answers { AnswersPageCall header.now call owner pages.old pages.new result }
    ensures full { HasAllPeaks header.now.layout peaks.old → HasAllPeaks header.now.layout peaks.new }
    ensures leaves { asks_rules call ≡ false → peaks.new ≡ peaks.old }
{
    rules.tells();
    match call {
        PageCall::Change(counter, delta, mode) => {
            change_own(pages, header, owner, counter, delta, mode);
            PageAnswer::Done
        }
        PageCall::Fold(cpu) => {
            fold(pages, &header.layout, cpu, owns_cpu(owner, cpu));
            PageAnswer::Done
        }
        PageCall::Test(zone, mark, most) => {
            PageAnswer::Tested(watermark_test(pages, header, zone, mark, most))
        }
        PageCall::Value(counter) => PageAnswer::Value(place_value(pages, counter)),
        PageCall::Snapshot(counter) => PageAnswer::Snapshot(snapshot(
            pages,
            &header.layout,
            counter,
        )),
        PageCall::System(item) => PageAnswer::System(system_value(pages, item)),
        PageCall::SetPressure(node) => {
            set_pressure(pages, peaks, header, rules, node);
            PageAnswer::Done
        }
        PageCall::SetNormal(node) => {
            set_normal(pages, peaks, header, rules, node);
            PageAnswer::Done
        }
        PageCall::Bury(cpu) => {
            bury(pages, peaks, header, rules, cpu);
            PageAnswer::Done
        }
        PageCall::Turn(node, order, most) => {
            PageAnswer::Balanced(turn(pages, peaks, header, rules, node, order, most))
        }
    }
}

/// Changes a counter of the CPU that the caller owns.
#[inline]
fn change_own(
    pages: &mut Plain,
    header: &Header,
    owner: Option<CpuId>,
    counter: CounterId,
    delta: i64,
    mode: Mode,
)
    requires header { IsHeader header.now }
    requires numbers { IsSmallState header.now.layout (2 ^ 61) pages.old }
    requires fits { FitsPageCall header.now (Change counter delta mode) owner pages.old }
    ensures { AnswersPageCall header.now (Change counter delta mode) owner pages.old pages.new Done }
{
    match owner {
        Some(cpu) => pages.change(&header.layout, cpu, counter, delta, mode),
        None => {}
    }
}

/// Whether a caller that owns a CPU, or none, owns this one.
#[inline]
fn owns_cpu(owner: Option<CpuId>, cpu: CpuId) -> bool
    ensures { result ≡ owns_cpu owner cpu }
{
    match owner {
        Some(own) => own.number == cpu.number,
        None => false,
    }
}
