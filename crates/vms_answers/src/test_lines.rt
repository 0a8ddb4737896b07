ghost use Rattle.std.specs.Prelude.{◌≡◌, ◌+◌, ◌≤◌, ◌∷◌, ◌++◌, codes, decimal, drop, if◌then◌else◌, length, OnErr, OnOk};
ghost use Rattle.vms_world.specs.Common.{sentence};
ghost use Rattle.vms_text.specs.Writing.{Begins};
ghost use Rattle.vms_answers.specs.AnswerLines.{free_words, yes_or_no};

use itoa::write_digits;
use vms_base::Memory;
use vms_calls::Verdict;

/// The most bytes of the line of a test.
const MOST: usize = 72;

/// Appends the line of a test of a watermark. It is put together in a buffer, from its end on, and copied once.
pub(crate) fn write_tested(out: &mut Vec<u8>, number: u32, verdict: Verdict) -> Result<(), Memory>
    ensures ok { OnOk result (out.new.items ≡ out.old.items ++ (codes "line " ++ decimal number ++ codes ": "
        ++ sentence (yes_or_no verdict.yes ∷ free_words verdict.free verdict.fast))) }
    ensures err { OnErr result (Begins out.old.items out.new.items) }
{
    let mut line = [0; MOST];
    let start = spell_test(&mut line, number, verdict);
    out.extend_from_slice(&line[start..])?;
    Ok(())
}

/// Puts the line of a test at the end of a buffer. Says where it starts, as each of these does.
fn spell_test(line: &mut [u8; MOST], number: u32, verdict: Verdict) -> usize
    ensures within { result ≤ 72 }
    ensures spelled { drop result line.new ≡ (codes "line " ++ decimal number ++ codes ": "
        ++ sentence (yes_or_no verdict.yes ∷ free_words verdict.free verdict.fast)) ++ drop 72 line.old }
{
    let way = put_way(line, verdict.fast);
    let free = put_number(line, way, verdict.free);
    let yes = put_yes(line, free, verdict.yes);
    let digits = put_number(line, yes, number as u64);
    put(line, digits, b"line ")
}

/// Puts what the line has after the free pages.
#[inline]
fn put_way(line: &mut [u8; MOST], fast: bool) -> usize
    ensures start { (62 ≤ result) × (result ≤ 72) }
    ensures written { drop result line.new
        ≡ (codes " " ++ (if fast then codes "fast" else codes "snapshot") ++ codes "\n") ++ drop 72 line.old }
{
    if fast {
        put(line, MOST, b" fast\n")
    } else {
        put(line, MOST, b" snapshot\n")
    }
}

/// Puts what it has between its two numbers.
#[inline]
fn put_yes(line: &mut [u8; MOST], end: usize, yes: bool) -> usize
    requires { (11 ≤ end) × (end ≤ 72) }
    ensures start { (end ≤ result + 11) × (result ≤ end) }
    ensures written { drop result line.new ≡ (codes ": " ++ yes_or_no yes ++ codes " free ") ++ drop end line.old }
{
    if yes {
        put(line, end, b": yes free ")
    } else {
        put(line, end, b": no free ")
    }
}

/// Puts a number.
#[inline]
fn put_number(line: &mut [u8; MOST], end: usize, number: u64) -> usize
    requires { (20 ≤ end) × (end ≤ 72) }
    ensures start { (end ≤ result + 20) × (result ≤ end) }
    ensures written { drop result line.new ≡ decimal number ++ drop end line.old }
{
    write_digits(number, line, end)
}

/// Puts bytes so that they stand before `end`.
#[inline]
fn put(line: &mut [u8], end: usize, text: &[u8]) -> usize
    requires { (length text.now ≤ end) × (end ≤ length line.old) }
    ensures start { result + length text.now ≡ end }
    ensures written { drop result line.new ≡ text.now ++ drop end line.old }
{
    let start = end - text.len();
    line[start..end].copy_from_slice(text);
    start
}
