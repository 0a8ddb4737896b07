ghost use Rattle.std.specs.Prelude.{OnErr, OnOk};
ghost use Rattle.vms_text.specs.Writing.{Begins};
ghost use Rattle.vms_world.specs.Common.{IsThresholdRule, normal_threshold_of, pressure_threshold_of};
ghost use Rattle.vms_call_lines.specs.Calls.{WritesCall};
ghost use Rattle.vms_plain_control.specs.PageCalls.{FitsPageCall, HasAllForCall};
ghost use Rattle.vms_own_acts.specs.Common.{IsExactly};

use crate::formulas::{NormalFormula, PressureFormula};
use vms_base::{CpuId, Header, Memory};
use vms_calc::{Rule, Rules};
use vms_call_lines::write_call;
use vms_calls::PageCall;
use vms_core::Plain;
use vms_plain_control::Peaks;

/// Makes a call on the page counters by the kernel's formulas, and appends the lines of its events.
#[inline]
pub(crate) fn write_by_formulas(
    out: &mut Vec<u8>,
    caller: u32,
    pages: &mut Plain,
    peaks: &mut Peaks,
    header: &Header,
    owner: Option<CpuId>,
    call: PageCall,
) -> Result<(), Memory>
    requires fits { FitsPageCall header.now call owner pages.old }
    requires has { HasAllForCall header.now call pages.old peaks.old }
    ensures ok { OnOk result (WritesCall header.now (IsExactly pressure_threshold_of) (IsExactly normal_threshold_of)
        call owner caller pages.old peaks.old pages.new peaks.new out.old.items out.new.items) }
    ensures err { OnErr result (Begins out.old.items out.new.items) }
{
    write_by(
        out,
        caller,
        pages,
        peaks,
        header,
        owner,
        call,
        NormalFormula,
        PressureFormula,
    )
}

fn write_by<N: Rule, P: Rule>(
    out: &mut Vec<u8>,
    caller: u32,
    pages: &mut Plain,
    peaks: &mut Peaks,
    header: &Header,
    owner: Option<CpuId>,
    call: PageCall,
    normal: N,
    pressure: P,
) -> Result<(), Memory>
    requires fits { FitsPageCall header.now call owner pages.old }
    requires has { HasAllForCall header.now call pages.old peaks.old }
    requires normal { IsThresholdRule (N.accepts normal) (N.answers normal) }
    requires pressure { IsThresholdRule (P.accepts pressure) (P.answers pressure) }
    ensures ok { OnOk result (WritesCall header.now (P.answers pressure) (N.answers normal) call
        owner caller pages.old peaks.old pages.new peaks.new out.old.items out.new.items) }
    ensures err { OnErr result (Begins out.old.items out.new.items) }
{
    let rules = Rules::make(normal, pressure);
    write_call(out, caller, pages, peaks, header, &rules, owner, call)
}
