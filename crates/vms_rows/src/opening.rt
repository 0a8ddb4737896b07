ghost use Rattle.std.specs.Prelude.{◌≡◌, ◌++◌, map, replicate, OnOk};
ghost use Rattle.vms_history.specs.Common.{word_of};
ghost use Rattle.vms_rows.specs.Rows.{gap};

use crate::rows::GAP;
use vms_base::{Memory, encode};

/// Appends the words of a row, and those that stay 0 after them.
pub fn push_row(words: &mut Vec<u64>, row: &[u64]) -> Result<(), Memory>
    ensures { OnOk result (words.new.items ≡ words.old.items ++ (row.now ++ replicate gap 0)) }
{
    words.extend_from_slice(row)?;
    words.extend_from_slice(&[0; GAP])?;
    Ok(())
}

/// Appends the words of a row of numbers, and those that stay 0 after them.
pub fn push_signed_row(words: &mut Vec<u64>, numbers: &[i64]) -> Result<(), Memory>
    ensures { OnOk result (words.new.items ≡ words.old.items ++ (map word_of numbers.now ++ replicate gap 0)) }
{
    for number in numbers {
        words.push(encode(*number))?;
    }
    words.extend_from_slice(&[0; GAP])?;
    Ok(())
}
