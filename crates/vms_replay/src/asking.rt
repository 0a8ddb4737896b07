ghost use Rattle.std.specs.Prelude.{◌≡◌, ◌++◌, ◌∷◌, [], if◌then◌else◌, OnOk};
ghost use Rattle.vms_replay.specs.Replaying.{is_asking as tells_asking};

use crate::Wait;
use vms_base::Memory;
use vms_line::Act;

/// Has the line of this number wait, if its act answers something.
#[inline(always)]
pub(crate) fn ask(waits: &mut Vec<Wait>, number: u32, act: Act) -> Result<(), Memory>
    ensures { OnOk result (waits.new.items
        ≡ waits.old.items ++ (if tells_asking act then Wait.Answer number ∷ [] else [])) }
{
    if is_asking(act) {
        waits.push(Wait::Answer(number))?;
    }
    Ok(())
}

/// Whether an act answers something.
#[inline]
fn is_asking(act: Act) -> bool
    ensures { result ≡ tells_asking act }
{
    match act {
        Act::Lim(..)
        | Act::Cmp(..)
        | Act::Sum(..)
        | Act::Rough(..)
        | Act::EvSum(..)
        | Act::Water(..)
        | Act::Val(..)
        | Act::Snap(..)
        | Act::Sys(..)
        | Act::Kswapd(..) => true,
        _ => false,
    }
}
