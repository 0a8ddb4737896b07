ghost use Rattle.std.specs.Prelude.{◌≡◌, map};
ghost use Rattle.vms_base.specs.Common.{IsHeader};
ghost use Rattle.vms_line.specs.Forms.{form_of, has_lane, act_in_words, read_fields, verb_named};

use crate::form_fields::{
    amount_fields, change_fields, count_fields, counter_fields, event_fields, limited_fields,
    marked_fields, name_fields, node_fields, number_fields, one_cpu_fields, paged_fields,
    turn_fields, value_fields,
};
use crate::{Act, LineCause};
use vms_base::Header;

/// What a lane's line does, by the word after the lane's.
#[derive(Clone, Copy, Debug)]
pub(crate) enum Verb {
    Mod,
    Inc,
    Dec,
    Ev,
    Cnt,
    Lim,
    Cmp,
    Sum,
    Rough,
    Csync,
    EvSum,
    Fold,
    Water,
    Val,
    Snap,
    Sys,
    Pressure,
    Normal,
    Dead,
    Kswapd,
}

/// What a verb and its fields say on the control lane, or else on a CPU's.
#[inline(always)]
pub(crate) fn read_act(
    header: &Header,
    control: bool,
    verb: &[u8],
    fields: &[&[u8]],
) -> Result<Act, LineCause>
    requires { IsHeader header.now }
    ensures { result
        ≡ act_in_words header.now control verb.now (map (λ word. word.now) fields.now) }
{
    match verb_named(verb) {
        Some(verb) if has_lane(header, control, verb) => read_fields(header, verb, fields),
        _ => Err(LineCause::Malformed),
    }
}

/// The verb that a word is.
#[inline(always)]
fn verb_named(word: &[u8]) -> Option<Verb>
    ensures { result ≡ verb_named word.now }
{
    match word {
        b"mod" => Some(Verb::Mod),
        b"inc" => Some(Verb::Inc),
        b"dec" => Some(Verb::Dec),
        b"ev" => Some(Verb::Ev),
        b"cnt" => Some(Verb::Cnt),
        b"lim" => Some(Verb::Lim),
        b"cmp" => Some(Verb::Cmp),
        b"sum" => Some(Verb::Sum),
        b"rough" => Some(Verb::Rough),
        b"csync" => Some(Verb::Csync),
        b"evsum" => Some(Verb::EvSum),
        b"fold" => Some(Verb::Fold),
        b"ok" => Some(Verb::Water),
        b"val" => Some(Verb::Val),
        b"snap" => Some(Verb::Snap),
        b"sys" => Some(Verb::Sys),
        b"pressure" => Some(Verb::Pressure),
        b"normal" => Some(Verb::Normal),
        b"dead" => Some(Verb::Dead),
        b"kswapd" => Some(Verb::Kswapd),
        _ => None,
    }
}

/// Whether the control lane, or else each CPU's lane, has a verb.
#[inline]
fn has_lane(header: &Header, control: bool, verb: Verb) -> bool
    ensures { result ≡ has_lane header.now control (form_of verb).lanes }
{
    match verb {
        Verb::Mod
        | Verb::Inc
        | Verb::Dec
        | Verb::Ev
        | Verb::Cnt
        | Verb::Lim
        | Verb::Cmp
        | Verb::Sum
        | Verb::Rough
        | Verb::Csync => !control,
        Verb::EvSum | Verb::Fold | Verb::Water | Verb::Val | Verb::Snap | Verb::Sys => true,
        Verb::Pressure | Verb::Normal | Verb::Dead => control,
        Verb::Kswapd => control && header.layout.positions() == 16,
    }
}

/// The act that the fields after a verb make.
fn read_fields(header: &Header, verb: Verb, fields: &[&[u8]]) -> Result<Act, LineCause>
    requires { IsHeader header.now }
    ensures { result ≡ read_fields header.now (form_of verb).fields (map (λ word. word.now) fields.now) }
{
    match verb {
        Verb::Mod => change_fields(header, fields).map(|(counter, pages)| Act::Mod(counter, pages)),
        Verb::Inc => paged_fields(header, fields).map(Act::Inc),
        Verb::Dec => paged_fields(header, fields).map(Act::Dec),
        Verb::Ev => count_fields(fields).map(|(event, number)| Act::Ev(event, number)),
        Verb::Cnt => amount_fields(header, fields).map(|(counter, amount)| Act::Cnt(
            counter, amount,
        )),
        Verb::Lim => limited_fields(header, fields).map(|(counter, limit, amount)| Act::Lim(
            counter, limit, amount,
        )),
        Verb::Cmp => number_fields(header, fields).map(|(counter, number)| Act::Cmp(
            counter, number,
        )),
        Verb::Sum => name_fields(header, fields).map(Act::Sum),
        Verb::Rough => name_fields(header, fields).map(Act::Rough),
        Verb::Csync => name_fields(header, fields).map(Act::Csync),
        Verb::EvSum => event_fields(fields).map(Act::EvSum),
        Verb::Fold => one_cpu_fields(header, fields).map(Act::Fold),
        Verb::Water => marked_fields(header, fields).map(|(zone, mark, index)| Act::Water(
            zone, mark, index,
        )),
        Verb::Val => counter_fields(header, fields).map(Act::Val),
        Verb::Snap => counter_fields(header, fields).map(Act::Snap),
        Verb::Sys => value_fields(header, fields).map(Act::Sys),
        Verb::Pressure => node_fields(header, fields).map(Act::Pressure),
        Verb::Normal => node_fields(header, fields).map(Act::Normal),
        Verb::Dead => one_cpu_fields(header, fields).map(Act::Dead),
        Verb::Kswapd => turn_fields(header, fields).map(|(node, order, index)| Act::Kswapd(
            node, order, index,
        )),
    }
}
