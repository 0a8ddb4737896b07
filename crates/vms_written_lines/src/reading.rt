ghost use Rattle.std.specs.Prelude.{◌≡◌, option_map};
ghost use Rattle.vms_text.specs.Common.{is_ignored};
ghost use Rattle.vms_written_lines.specs.Forms.{form_of, read_arguments, read_step};
ghost use Rattle.vms_written_lines.specs.Lines.{read_line, read_said};

use crate::arguments::{
    amount, counter, cpu, cpu_if_any, cpu_state, eight, group, item, number, place, unsigned_of,
};
use crate::long_steps::{load_a, load_d, load_m, load_t, put, set_t, take};
use crate::step_names::{StepName, step_named};
use crate::words::Words;
use crate::{WideStep, WrittenLine};
use vms_base::Layout;
use vms_text::is_ignored;

/// The most bytes of a line.
const MOST_LINE: usize = 200;

/// Reads a line after `history 1`, without its newline. None where it isn't in form.
pub fn read_line(layout: &Layout, line: &[u8]) -> Option<WrittenLine>
    ensures { result ≡ read_line layout.now line.now }
{
    if line.len() > MOST_LINE {
        return None;
    }
    if is_blank(line) {
        return Some(WrittenLine::Blank);
    }
    let mut words = Words::of(line);
    let said = read_said(&mut words, layout)?;
    if words.are_read() { Some(said) } else { None }
}

/// Whether a line is ignored. Most lines begin with a digit, and none of these is.
#[inline]
fn is_blank(line: &[u8]) -> bool
    ensures { result ≡ is_ignored line.now }
{
    match line {
        [b'0'..=b'9', ..] => false,
        _ => is_ignored(line),
    }
}

/// What the first words of a line say: `phase`, or a caller and its step.
fn read_said(words: &mut Words<'_>, layout: &Layout) -> Option<WrittenLine>
    ensures words { option_map (λ said. (said, words.new.words)) result ≡ read_said layout.now words.old.words }
    ensures clean { words.new.clean ≡ words.old.clean }
{
    match words.next()? {
        b"phase" => Some(WrittenLine::Phase),
        word => {
            let caller = unsigned_of(word)?;
            let step = read_step(words, layout)?;
            Some(WrittenLine::Event(caller, step))
        }
    }
}

/// A step's name and its arguments.
fn read_step(words: &mut Words<'_>, layout: &Layout) -> Option<WideStep>
    ensures words { option_map (λ step. (step, words.new.words)) result ≡ read_step layout.now words.old.words }
    ensures clean { words.new.clean ≡ words.old.clean }
{
    let name = step_named(words.next()?)?;
    read_arguments(words, layout, name)
}

/// The step that the words after its name make.
fn read_arguments(words: &mut Words<'_>, layout: &Layout, name: StepName) -> Option<WideStep>
    ensures words { option_map (λ step. (step, words.new.words)) result
        ≡ read_arguments layout.now (form_of name).arguments words.old.words }
    ensures clean { words.new.clean ≡ words.old.clean }
{
    match name {
        StepName::LoadT => load_t(words, layout),
        StepName::LoadD => load_d(words, layout),
        StepName::Put => put(words, layout),
        StepName::Miss => Some(WideStep::Miss(group(words, layout)?, eight(words)?)),
        StepName::AddG => Some(WideStep::AddG(counter(words, layout)?, amount(words)?)),
        StepName::AddS => Some(WideStep::AddS(item(words, layout)?, amount(words)?)),
        StepName::Take => take(words, layout),
        StepName::LoadG => Some(WideStep::LoadG(counter(words, layout)?, amount(words)?)),
        StepName::LoadS => Some(WideStep::LoadS(item(words, layout)?, amount(words)?)),
        StepName::LoadM => load_m(words, layout),
        StepName::LoadO => Some(WideStep::LoadO(cpu(words, layout)?, cpu_state(words)?)),
        StepName::SetT => set_t(words, layout),
        StepName::SetM => Some(WideStep::SetM(place(words, layout)?, number(words)?)),
        StepName::SetO => Some(WideStep::SetO(cpu(words, layout)?)),
        StepName::SetA => Some(WideStep::SetA(place(words, layout)?, number(words)?)),
        StepName::LoadA => load_a(words, layout),
        StepName::Split => Some(WideStep::Split(number(words)?, cpu_if_any(words, layout)?)),
        StepName::Join => Some(WideStep::Join(number(words)?)),
    }
}
