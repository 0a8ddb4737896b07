//! A call on plain page counters with its lines.

ghost use Rattle.std.specs.Prelude.{◌≡◌, ◌^◌, OnErr, OnOk, Some};
ghost use Rattle.vms_text.specs.Common.{Begins};
ghost use Rattle.vms_calls.specs.Common.{CpuId, IsHeader, State};
ghost use Rattle.vms_calls.specs.PageCalls.{owns_cpu};
ghost use Rattle.vms_calls.specs.declared.page_calls.PageCall.TheVariants.{Change};
ghost use Rattle.vms_core.specs.ChangedStates.{with_change};
ghost use Rattle.vms_plans.specs.Common.{change_plan};
ghost use Rattle.vms_plain_pages.specs.Common.{IsSmallState};
ghost use Rattle.vms_plain_control.specs.Common.{HasAllPeaks};
ghost use Rattle.vms_plain_control.specs.PageCalls.{FitsPageCall, HasAllForCall};
ghost use Rattle.vms_call_lines.specs.Calls.{WritesCall};
ghost use Rattle.vms_call_lines.specs.Lines.{WritesWay};

use crate::burials::write_burial;
use crate::changes::write_change;
use crate::folds::write_fold;
use crate::looks::{write_snapshot, write_system, write_value};
use crate::tests::write_test;
use crate::turns::write_turn;
use vms_base::{CounterId, CpuId, Header, Memory, Mode};
use vms_calc::{Rule, Rules};
use vms_calls::{PageCall, Rating};
use vms_core::Plain;
use vms_plain_control::Peaks;
use vms_rating_lines::write_node_rating;

/// Makes a call on plain page counters by the pass of this number, which owns a CPU or none and meets no other caller,
/// and appends the lines of the events that it makes. After an error the text may end in a part of the lines, and the
/// counters may have changed.
pub fn write_call<N: Rule, P: Rule>(
    out: &mut Vec<u8>,
    caller: u32,
    pages: &mut Plain,
    peaks: &mut Peaks,
    header: &Header,
    rules: &Rules<N, P>,
    owner: Option<CpuId>,
    call: PageCall,
) -> Result<(), Memory>
    requires fits { FitsPageCall header.now call owner pages.old }
    requires has { HasAllForCall header.now call pages.old peaks.old }
    ensures writes { OnOk result (WritesCall header.now (P.answers rules.now.pressure) (N.answers rules.now.normal) call
        owner caller pages.old peaks.old pages.new peaks.new out.old.items out.new.items) }
    ensures full { OnOk result (HasAllPeaks header.now.layout peaks.old → HasAllPeaks header.now.layout peaks.new) }
    ensures err { OnErr result (Begins out.old.items out.new.items) }
{
    rules.tells();
    match call {
        PageCall::Change(counter, delta, mode) => {
            write_own_change(out, caller, pages, header, owner, counter, delta, mode)
        }
        PageCall::Fold(cpu) => {
            let own = owns_cpu(owner, cpu);
            write_fold(out, caller, pages, &header.layout, cpu, own)
        }
        PageCall::Test(zone, mark, most) => {
            write_test(out, caller, pages, header, zone, mark, most)?;
            Ok(())
        }
        PageCall::Value(counter) => {
            write_value(out, caller, pages, counter)?;
            Ok(())
        }
        PageCall::Snapshot(counter) => {
            write_snapshot(out, caller, pages, &header.layout, counter)?;
            Ok(())
        }
        PageCall::System(item) => {
            write_system(out, caller, pages, item)?;
            Ok(())
        }
        PageCall::SetPressure(node) => {
            let rating = Rating::Pressure;
            write_node_rating(out, caller, pages, peaks, header, rules, node, rating)
        }
        PageCall::SetNormal(node) => {
            let rating = Rating::Normal;
            write_node_rating(out, caller, pages, peaks, header, rules, node, rating)
        }
        PageCall::Bury(cpu) => {
            write_burial(out, caller, pages, peaks, header, rules, cpu)?;
            Ok(())
        }
        PageCall::Turn(node, order, most) => {
            write_turn(out, caller, pages, peaks, header, rules, node, order, most)?;
            Ok(())
        }
    }
}

/// Changes a counter of the CPU that the caller owns, after its lines.
#[inline]
fn write_own_change(
    out: &mut Vec<u8>,
    caller: u32,
    pages: &mut Plain,
    header: &Header,
    owner: Option<CpuId>,
    counter: CounterId,
    delta: i64,
    mode: Mode,
) -> Result<(), Memory>
    requires header { IsHeader header.now }
    requires numbers { IsSmallState header.now.layout (2 ^ 61) pages.old }
    requires fits { FitsPageCall header.now (Change counter delta mode) owner pages.old }
    ensures ok { OnOk result ((own : CpuId) × (last : State) × (owner ≡ Some own)
        × (pages.new ≡ with_change header.now.layout own.number counter.number delta mode pages.old)
        × WritesWay owner (change_plan header.now.layout own counter delta mode) pages.old caller
        out.old.items out.new.items (tt {0}) last) }
    ensures err { OnErr result (Begins out.old.items out.new.items) }
{
    match owner {
        Some(cpu) => {
            write_change(
                out,
                caller,
                pages,
                &header.layout,
                cpu,
                counter,
                delta,
                mode,
            )?;
            pages.change(&header.layout, cpu, counter, delta, mode);
            Ok(())
        }
        None => Ok(()),
    }
}

/// Whether a caller that owns a CPU, or none, owns this one.
#[inline]
fn owns_cpu(owner: Option<CpuId>, cpu: CpuId) -> bool
    ensures { result ≡ owns_cpu owner cpu }
{
    match owner {
        Some(own) => own.number == cpu.number,
        None => false,
    }
}
