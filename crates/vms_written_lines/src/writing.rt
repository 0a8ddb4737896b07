ghost use Rattle.std.specs.Fmt.{signed_decimal};
ghost use Rattle.std.specs.Prelude.{◌≡◌, ◌∷◌, [], ◌++◌, OnOk, OnErr, codes, decimal, drop, length, map};
ghost use Rattle.vms_text.specs.Common.{Begins, joined, spaced};
ghost use Rattle.vms_written_lines.specs.Spelling.{cpu_state_word, event_line, history_line, list_words, mode_word};
ghost use Rattle.vms_written_lines.specs.Spelling.{phase_line, step_words};
ghost use Rattle.vms_written_lines.specs.WideSteps.{widened};

use itoa::Buffer;
use vms_base::{CpuState, Diffs, Memory, Mode};
use vms_core::Step;
use vms_text::{Word, write_words};

/// Appends the line that a history begins after, with the byte that ends it.
pub fn push_history_line(out: &mut Vec<u8>) -> Result<(), Memory>
    ensures ok { OnOk result (out.new.items ≡ out.old.items ++ history_line) }
    ensures err { OnErr result (Begins out.old.items out.new.items) }
{
    write_words(out, &[Word::Text(b"history"), Word::Text(b"1")])
}

/// Appends the line that begins a phase, with the byte that ends it.
pub fn push_phase_line(out: &mut Vec<u8>) -> Result<(), Memory>
    ensures ok { OnOk result (out.new.items ≡ out.old.items ++ phase_line) }
    ensures err { OnErr result (Begins out.old.items out.new.items) }
{
    write_words(out, &[Word::Text(b"phase")])
}

/// Appends the line of an event in its one spelling, with the byte that ends it. After a failure `out` may end in a
/// part of it.
pub fn push_event_line(out: &mut Vec<u8>, caller: u32, step: &Step) -> Result<(), Memory>
    ensures ok { OnOk result (out.new.items ≡ out.old.items ++ event_line caller (widened step.now)) }
    ensures err { OnErr result (Begins out.old.items out.new.items) }
{
    let (name, first) = name_and_first(step);
    push_start(out, caller, name, first)?;
    end_step(out, step)
}

/// The name of a step and its first argument.
#[inline]
fn name_and_first(step: &Step) -> (&'static [u8], u32)
    ensures { step_words (widened step.now)
        ≡ result.0.now ∷ decimal result.1 ∷ drop 2 (step_words (widened step.now)) }
{
    match *step {
        Step::LoadT(place, _, _) => (b"LoadT", place.number),
        Step::LoadD(cpu, _, _) => (b"LoadD", cpu.number),
        Step::Put(counter, _, _, _, _) => (b"Put", counter.number),
        Step::Miss(group, _) => (b"Miss", group.number),
        Step::AddG(counter, _) => (b"AddG", counter.number),
        Step::AddS(item, _) => (b"AddS", item.number),
        Step::Take(cpu, _, _) => (b"Take", cpu.number),
        Step::LoadG(counter, _) => (b"LoadG", counter.number),
        Step::LoadS(item, _) => (b"LoadS", item.number),
        Step::LoadM(place, _, _) => (b"LoadM", place.number),
        Step::LoadO(cpu, _) => (b"LoadO", cpu.number),
        Step::SetT(cpu, _, _) => (b"SetT", cpu.number),
        Step::SetM(place, _) => (b"SetM", place.number),
        Step::SetO(cpu) => (b"SetO", cpu.number),
        Step::SetA(place, _) => (b"SetA", place.number),
        Step::LoadA(cpu, _, _) => (b"LoadA", cpu.number),
        Step::Split(pass, _) => (b"Split", pass),
        Step::Join(pass) => (b"Join", pass),
    }
}

/// Appends the arguments of a step after the first, and the byte that ends the line.
#[inline]
fn end_step(out: &mut Vec<u8>, step: &Step) -> Result<(), Memory>
    ensures ok { OnOk result
        (out.new.items ≡ out.old.items ++ (spaced (drop 2 (step_words (widened step.now))) ++ 10 ∷ [])) }
    ensures err { OnErr result (Begins out.old.items out.new.items) }
{
    match *step {
        Step::LoadT(_, threshold, sets) => end_two(out, u64::from(threshold), u64::from(sets)),
        Step::LoadD(_, group, list) => end_group(out, u64::from(group.number), list),
        Step::Put(_, list, threshold, delta, mode) => end_put(
            out,
            list,
            u64::from(threshold),
            delta,
            mode,
        ),
        Step::Miss(_, list) => end_list(out, list),
        Step::AddG(_, amount) => end_signed(out, amount),
        Step::AddS(_, amount) => end_signed(out, amount),
        Step::Take(_, group, list) => end_group(out, u64::from(group.number), list),
        Step::LoadG(_, value) => end_signed(out, value),
        Step::LoadS(_, value) => end_signed(out, value),
        Step::LoadM(_, mark, sets) => end_two(out, mark, u64::from(sets)),
        Step::LoadO(_, state) => end_one(out, number_of_state(state)),
        Step::SetT(_, place, threshold) => end_two(
            out,
            u64::from(place.number),
            u64::from(threshold),
        ),
        Step::SetM(_, mark) => end_one(out, mark),
        Step::SetO(_) => end_line(out),
        Step::SetA(_, sets) => end_one(out, u64::from(sets)),
        Step::LoadA(_, place, Some(sets)) => end_two(out, u64::from(place.number), u64::from(sets)),
        Step::LoadA(_, place, None) => end_with_none(out, u64::from(place.number)),
        Step::Split(_, Some(cpu)) => end_one(out, u64::from(cpu.number)),
        Step::Split(_, None) => end_none(out),
        Step::Join(_) => end_line(out),
    }
}

/// Appends a caller, the name of its step and the first argument.
#[inline]
fn push_start(out: &mut Vec<u8>, caller: u32, name: &[u8], first: u32) -> Result<(), Memory>
    ensures ok { OnOk result
        (out.new.items ≡ out.old.items ++ joined (decimal caller ∷ name.now ∷ decimal first ∷ [])) }
    ensures err { OnErr result (Begins out.old.items out.new.items) }
{
    push_number(out, u64::from(caller))?;
    push_name(out, name, first)
}

/// Appends the name of a step and its first argument.
#[inline]
fn push_name(out: &mut Vec<u8>, name: &[u8], first: u32) -> Result<(), Memory>
    ensures ok { OnOk result (out.new.items ≡ out.old.items ++ (32 ∷ name.now ++ 32 ∷ decimal first)) }
    ensures err { OnErr result (Begins out.old.items out.new.items) }
{
    push_text(out, name)?;
    push_unsigned(out, u64::from(first))
}

/// Ends a line.
#[inline]
fn end_line(out: &mut Vec<u8>) -> Result<(), Memory>
    ensures ok { OnOk result (out.new.items ≡ out.old.items ++ 10 ∷ []) }
    ensures err { OnErr result (Begins out.old.items out.new.items) }
{
    out.push(b'\n')?;
    Ok(())
}

/// Ends a line with a number.
#[inline]
fn end_one(out: &mut Vec<u8>, a: u64) -> Result<(), Memory>
    ensures ok { OnOk result (out.new.items ≡ out.old.items ++ (spaced (decimal a ∷ []) ++ 10 ∷ [])) }
    ensures err { OnErr result (Begins out.old.items out.new.items) }
{
    push_unsigned(out, a)?;
    end_line(out)
}

/// Ends a line with two numbers.
#[inline]
fn end_two(out: &mut Vec<u8>, a: u64, b: u64) -> Result<(), Memory>
    ensures ok { OnOk result (out.new.items ≡ out.old.items ++ (spaced (decimal a ∷ decimal b ∷ []) ++ 10 ∷ [])) }
    ensures err { OnErr result (Begins out.old.items out.new.items) }
{
    push_unsigned(out, a)?;
    end_one(out, b)
}

/// Ends a line with a signed number.
#[inline]
fn end_signed(out: &mut Vec<u8>, amount: i64) -> Result<(), Memory>
    ensures ok { OnOk result (out.new.items ≡ out.old.items ++ (spaced (signed_decimal amount ∷ []) ++ 10 ∷ [])) }
    ensures err { OnErr result (Begins out.old.items out.new.items) }
{
    push_signed(out, amount)?;
    end_line(out)
}

/// Ends a line with the word for nothing.
#[inline]
fn end_none(out: &mut Vec<u8>) -> Result<(), Memory>
    ensures ok { OnOk result (out.new.items ≡ out.old.items ++ (spaced (codes "-" ∷ []) ++ 10 ∷ [])) }
    ensures err { OnErr result (Begins out.old.items out.new.items) }
{
    push_text(out, b"-")?;
    end_line(out)
}

/// Ends a line with a number and the word for nothing.
#[inline]
fn end_with_none(out: &mut Vec<u8>, a: u64) -> Result<(), Memory>
    ensures ok { OnOk result (out.new.items ≡ out.old.items ++ (spaced (decimal a ∷ codes "-" ∷ []) ++ 10 ∷ [])) }
    ensures err { OnErr result (Begins out.old.items out.new.items) }
{
    push_unsigned(out, a)?;
    end_none(out)
}

/// Ends a line with a list.
#[inline]
fn end_list(out: &mut Vec<u8>, list: Diffs) -> Result<(), Memory>
    ensures ok { OnOk result (out.new.items ≡ out.old.items ++ (spaced (list_words list.values []) ++ 10 ∷ [])) }
    ensures err { OnErr result (Begins out.old.items out.new.items) }
{
    push_list(out, &list.values)?;
    end_line(out)
}

/// Ends a line with a group and its list.
#[inline]
fn end_group(out: &mut Vec<u8>, group: u64, list: Diffs) -> Result<(), Memory>
    ensures ok { OnOk result
        (out.new.items ≡ out.old.items ++ (spaced (decimal group ∷ list_words list.values []) ++ 10 ∷ [])) }
    ensures err { OnErr result (Begins out.old.items out.new.items) }
{
    push_unsigned(out, group)?;
    end_list(out, list)
}

/// Ends the line of a put after its counter.
#[inline]
fn end_put(
    out: &mut Vec<u8>,
    list: Diffs,
    threshold: u64,
    delta: i64,
    mode: Mode,
) -> Result<(), Memory>
    ensures ok { OnOk result
        (out.new.items ≡ out.old.items ++ (spaced (list_words list.values
        (decimal threshold ∷ signed_decimal delta ∷ mode_word mode ∷ [])) ++ 10 ∷ [])) }
    ensures err { OnErr result (Begins out.old.items out.new.items) }
{
    push_list(out, &list.values)?;
    end_change(out, threshold, delta, mode)
}

/// Ends the line of a put after its list.
#[inline]
fn end_change(out: &mut Vec<u8>, threshold: u64, delta: i64, mode: Mode) -> Result<(), Memory>
    ensures ok { OnOk result (out.new.items ≡ out.old.items
        ++ (spaced (decimal threshold ∷ signed_decimal delta ∷ mode_word mode ∷ []) ++ 10 ∷ [])) }
    ensures err { OnErr result (Begins out.old.items out.new.items) }
{
    push_unsigned(out, threshold)?;
    end_delta(out, delta, mode)
}

/// Ends the line of a put after its threshold.
#[inline]
fn end_delta(out: &mut Vec<u8>, delta: i64, mode: Mode) -> Result<(), Memory>
    ensures ok { OnOk result
        (out.new.items ≡ out.old.items ++ (spaced (signed_decimal delta ∷ mode_word mode ∷ []) ++ 10 ∷ [])) }
    ensures err { OnErr result (Begins out.old.items out.new.items) }
{
    push_signed(out, delta)?;
    end_signed(out, number_of_mode(mode))
}

/// Appends numbers, a blank before each.
#[inline]
fn push_list(out: &mut Vec<u8>, values: &[i64; 8]) -> Result<(), Memory>
    ensures eight { length values.now ≡ 8 }
    ensures ok { OnOk result (out.new.items ≡ out.old.items ++ spaced (map signed_decimal values.now)) }
    ensures err { OnErr result (Begins out.old.items out.new.items) }
{
    for value in values {
        push_signed(out, *value)?;
    }
    Ok(())
}

/// Appends a blank and a text.
#[inline]
fn push_text(out: &mut Vec<u8>, text: &[u8]) -> Result<(), Memory>
    ensures ok { OnOk result (out.new.items ≡ out.old.items ++ 32 ∷ text.now) }
    ensures err { OnErr result (Begins out.old.items out.new.items) }
{
    out.push(b' ')?;
    out.extend_from_slice(text)?;
    Ok(())
}

/// Appends a blank and a number.
#[inline]
fn push_unsigned(out: &mut Vec<u8>, number: u64) -> Result<(), Memory>
    ensures ok { OnOk result (out.new.items ≡ out.old.items ++ 32 ∷ decimal number) }
    ensures err { OnErr result (Begins out.old.items out.new.items) }
{
    out.push(b' ')?;
    push_number(out, number)?;
    Ok(())
}

/// Appends a blank and a number, with its sign where it is negative.
#[inline]
fn push_signed(out: &mut Vec<u8>, number: i64) -> Result<(), Memory>
    ensures ok { OnOk result (out.new.items ≡ out.old.items ++ 32 ∷ signed_decimal number) }
    ensures err { OnErr result (Begins out.old.items out.new.items) }
{
    if number >= 0 {
        return push_unsigned(out, number as u64);
    }
    out.push(b' ')?;
    let mut buffer = Buffer::new();
    out.extend_from_slice(buffer.format(number).as_bytes())?;
    Ok(())
}

/// Appends a number. One of a single digit, as most are, is one byte and needs no buffer.
#[inline]
fn push_number(out: &mut Vec<u8>, number: u64) -> Result<(), Memory>
    ensures ok { OnOk result (out.new.items ≡ out.old.items ++ decimal number) }
    ensures err { OnErr result (out.new.items ≡ out.old.items) }
{
    if number < 10 {
        out.push(b'0' + number as u8)?;
    } else {
        let mut buffer = Buffer::new();
        out.extend_from_slice(buffer.format(number).as_bytes())?;
    }
    Ok(())
}

/// The number that a line has for a CPU's state.
#[inline]
fn number_of_state(state: CpuState) -> u64
    ensures { decimal result ≡ cpu_state_word state }
{
    match state {
        CpuState::Online => 0,
        CpuState::Dead => 1,
        CpuState::Absent => 2,
    }
}

/// The number that a line has for a mode.
#[inline]
fn number_of_mode(mode: Mode) -> i64
    ensures { signed_decimal result ≡ mode_word mode }
{
    match mode {
        Mode::Mod => 0,
        Mode::Inc => 1,
        Mode::Dec => -1,
    }
}
