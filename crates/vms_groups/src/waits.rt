ghost use Rattle.std.specs.Prelude.{◌≡◌, ◌≤◌, ◌+◌, ◌++◌, ◌∷◌, [], List, length, IfOk, OnOk};
ghost use Rattle.vms_groups.specs.GroupWaits.{asked_in, written_from};

use crate::printing::{write_refused_line, write_value_line};
use vms_base::Memory;
use vms_group_lines::GroupCause;
use vms_group_phase::NumberedValue;

/// A line of an open phase that prints something once the phase is made.
#[derive(Clone, Copy, Debug)]
pub(crate) enum GroupWait {
    /// The line of this number asks for a value.
    Value(u32),
    /// The line of this number doesn't count, for this cause, and stands after one that asks.
    Refused(GroupCause, u32),
}

/// Appends what lines print that wait, each that asks for a value with the next of these.
pub(crate) fn write_waits(
    out: &mut Vec<u8>,
    waits: &[GroupWait],
    values: &[NumberedValue],
) -> Result<(), Memory>
    requires { asked_in waits.now ≡ length values.now }
    ensures { OnOk result (out.new.items ≡ out.old.items ++ written_from values.now 0 waits.now) }
{
    let mut next = 0;
    for wait in waits {
        next = write_wait(out, *wait, values, next)?;
    }
    Ok(())
}

/// Appends what a line prints that waited, where so many values were printed before. Returns how many are now.
fn write_wait(
    out: &mut Vec<u8>,
    wait: GroupWait,
    values: &[NumberedValue],
    next: usize,
) -> Result<usize, Memory>
    requires { next + asked_in (wait ∷ []) ≤ length values.now }
    ensures count { IfOk result (λ after. after ≡ next + asked_in (wait ∷ [])) }
    ensures prints { IfOk result (λ after. (waiting : List GroupWait) →
        out.new.items ++ written_from values.now after waiting
        ≡ out.old.items ++ written_from values.now next (wait ∷ waiting)) }
{
    match wait {
        GroupWait::Value(line) => {
            write_value_line(out, line, values[next].value)?;
            Ok(next + 1)
        }
        GroupWait::Refused(cause, line) => {
            write_refused_line(out, line, cause)?;
            Ok(next)
        }
    }
}
