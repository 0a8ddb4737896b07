ghost use Rattle.std.specs.Prelude.{ℕ, ◌≤◌, ◌^◌, length, IfOk};
ghost use Rattle.vms_world.specs.Common.{IsThresholdRule, IsHeader};
ghost use Rattle.vozhkell_c.specs.Openings.{Closes, GoesByNormal, HoldsOpened, Opens};

use crate::held_counters::HeldCounters;
use crate::statuses::{HANDLES_OUT, HEADER_TOO_LONG, IN_USE, MADE, NO_MEMORY, NULL, header_status};
use std::alloc::Global;
use vms_base::{Header, Memory, ZoneSize};
use vms_calc::{Rule, Rules, normal_threshold, pressure_threshold};
use vms_counters::Counters;
use vms_header::{HeaderError, parse_header};

/// Opens counters with the header of a trace, into a variable that holds nothing. Where a line of the text is refused,
/// `line` is its number from 1.
#[unsafe(no_mangle)]
pub extern "C" fn vozhkell_c_open(
    alloc: Global,
    counters: &mut HeldCounters,
    text: &[u8],
    line: &mut u32,
) -> i32
    ensures { Opens text.now counters.new.value counters.old.value line.new line.old result }
{
    if let Some(room) = counters.take(alloc) {
        counters.put(room);
        return IN_USE;
    }
    if text.len() > 1 << 26 {
        return HEADER_TOO_LONG;
    }
    match parse_header(alloc, text) {
        Ok((header, _lines, _bytes)) => match opened(alloc, header) {
            Ok(room) => {
                counters.put(room);
                MADE
            }
            Err(_lack) => NO_MEMORY,
        },
        Err(HeaderError::Bad { line: at, cause }) => {
            *line = at;
            header_status(cause)
        }
        Err(HeaderError::Memory) => NO_MEMORY,
    }
}

/// Counters on the heap, with the thresholds that the kernel's normal rule gives.
fn opened(alloc: Global, header: Header) -> Result<Box<Option<Counters>, Global>, Memory>
    requires { IsHeader header }
    ensures { IfOk result (λ room. HoldsOpened header room.value) }
{
    opened_by(
        alloc,
        header,
        |size: &ZoneSize, online: u32| normal_threshold(size, online),
        |size: &ZoneSize, online: u32| pressure_threshold(size, online),
    )
}

/// The same by these rules, of which the normal one is the kernel's.
fn opened_by<N: Rule, P: Rule>(
    alloc: Global,
    header: Header,
    normal: N,
    pressure: P,
) -> Result<Box<Option<Counters>, Global>, Memory>
    requires header { IsHeader header }
    requires normal { IsThresholdRule (N.accepts normal) (N.answers normal) }
    requires pressure { IsThresholdRule (P.accepts pressure) (P.answers pressure) }
    requires exact { GoesByNormal (N.answers normal) }
    ensures { IfOk result (λ room. HoldsOpened header room.value) }
{
    let opened = Counters::open(alloc, header, &Rules::make(normal, pressure))?;
    Ok(Box::new(alloc, Some(opened))?)
}

/// Closes the counters that a variable holds, where no handle is out.
#[unsafe(no_mangle)]
pub extern "C" fn vozhkell_c_close(alloc: Global, counters: &mut HeldCounters) -> i32
    ensures { Closes counters.new.value counters.old.value result }
{
    let Some(mut room) = counters.take(alloc) else {
        return NULL;
    };
    let Some(open) = Box::replace(&mut room, None) else {
        unreachable!();
    };
    match open.close() {
        Ok(_closed) => MADE,
        Err(back) => {
            let _none = Box::replace(&mut room, Some(back));
            counters.put(room);
            HANDLES_OUT
        }
    }
}
