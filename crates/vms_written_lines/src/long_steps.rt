//! The arguments of the steps that have more than two, each as its form has them.

ghost use Rattle.std.specs.Prelude.{◌≡◌, option_map};
ghost use Rattle.vms_written_lines.specs.Forms.{form_of, read_arguments};
ghost use Rattle.vms_written_lines.specs.declared.step_names.StepName.TheVariants as names;

use crate::WideStep;
use crate::arguments::{amount, counter, cpu, eight, group, mode, number, number_if_any, place};
use crate::words::Words;
use vms_base::Layout;

#[inline]
pub(crate) fn load_t(words: &mut Words<'_>, layout: &Layout) -> Option<WideStep>
    ensures words { option_map (λ step. (step, words.new.words)) result
        ≡ read_arguments layout.now (form_of names.LoadT).arguments words.old.words }
    ensures clean { words.new.clean ≡ words.old.clean }
{
    Some(WideStep::LoadT(place(words, layout)?, number(words)?, number(words)?))
}

#[inline]
pub(crate) fn load_m(words: &mut Words<'_>, layout: &Layout) -> Option<WideStep>
    ensures words { option_map (λ step. (step, words.new.words)) result
        ≡ read_arguments layout.now (form_of names.LoadM).arguments words.old.words }
    ensures clean { words.new.clean ≡ words.old.clean }
{
    Some(WideStep::LoadM(place(words, layout)?, number(words)?, number(words)?))
}

#[inline]
pub(crate) fn load_d(words: &mut Words<'_>, layout: &Layout) -> Option<WideStep>
    ensures words { option_map (λ step. (step, words.new.words)) result
        ≡ read_arguments layout.now (form_of names.LoadD).arguments words.old.words }
    ensures clean { words.new.clean ≡ words.old.clean }
{
    Some(WideStep::LoadD(cpu(words, layout)?, group(words, layout)?, eight(words)?))
}

#[inline]
pub(crate) fn take(words: &mut Words<'_>, layout: &Layout) -> Option<WideStep>
    ensures words { option_map (λ step. (step, words.new.words)) result
        ≡ read_arguments layout.now (form_of names.Take).arguments words.old.words }
    ensures clean { words.new.clean ≡ words.old.clean }
{
    Some(WideStep::Take(cpu(words, layout)?, group(words, layout)?, eight(words)?))
}

#[inline]
pub(crate) fn set_t(words: &mut Words<'_>, layout: &Layout) -> Option<WideStep>
    ensures words { option_map (λ step. (step, words.new.words)) result
        ≡ read_arguments layout.now (form_of names.SetT).arguments words.old.words }
    ensures clean { words.new.clean ≡ words.old.clean }
{
    Some(WideStep::SetT(cpu(words, layout)?, place(words, layout)?, number(words)?))
}

#[inline]
pub(crate) fn load_a(words: &mut Words<'_>, layout: &Layout) -> Option<WideStep>
    ensures words { option_map (λ step. (step, words.new.words)) result
        ≡ read_arguments layout.now (form_of names.LoadA).arguments words.old.words }
    ensures clean { words.new.clean ≡ words.old.clean }
{
    Some(WideStep::LoadA(
        cpu(words, layout)?,
        place(words, layout)?,
        number_if_any(words)?,
    ))
}

#[inline]
pub(crate) fn put(words: &mut Words<'_>, layout: &Layout) -> Option<WideStep>
    ensures words { option_map (λ step. (step, words.new.words)) result
        ≡ read_arguments layout.now (form_of names.Put).arguments words.old.words }
    ensures clean { words.new.clean ≡ words.old.clean }
{
    Some(WideStep::Put(
        counter(words, layout)?,
        eight(words)?,
        number(words)?,
        amount(words)?,
        mode(words)?,
    ))
}
