ghost use Rattle.std.specs.Prelude.{[], IfOk, OnOk};
ghost use Rattle.vms_world.specs.Common.{IsHeader, Fits, Start};
ghost use Rattle.vms_file_order.specs.Common.{IsStartOf};
ghost use Rattle.vms_replay_phase.specs.Lines.{MayMakeLine};
ghost use Rattle.vms_replay_phase.specs.OpenReplays.{AnswersLine};
ghost use Rattle.vms_replay_phase.specs.ReplayedPhases.{IsReplayed};
ghost use Rattle.vms_replay_phase.specs.Spending.{AreVolumesOf};

use crate::AnswerTaker;
use crate::laws::open_phases_spend_their_lines;
use crate::open_replays::OpenReplay;
use std::alloc::Global;
use vms_base::{Header, Memory};
use vms_calc::{Rule, Rules};
use vms_plain_lines::open_phases_leave_room;
use vms_script::PhaseScript;
use vms_text::Item;
use vms_world::World;

/// Makes the lines of a phase from a world on, one after another as they stand in the text, and hands on what each
/// answers. Returns the world that the phase leaves.
pub fn replay_phase<N: Rule, P: Rule, A: AnswerTaker>(
    alloc: Global,
    world: World,
    header: &Header,
    script: &PhaseScript,
    rules: &Rules<N, P>,
    taker: &mut A,
) -> Result<World, Memory>
    requires header { IsHeader header.now }
    requires start { (start : Start) × IsStartOf header.now start world × Fits header.now start script.now }
    requires taker { A.Takes header.now taker.old [] taker.old }
    ensures { IfOk result (λ left. IsReplayed header.now (P.answers rules.now.pressure)
        (N.answers rules.now.normal) world script.now left
        (λ told. A.Takes header.now taker.old told taker.new)) }
{
    open_phases_spend_their_lines(rules);
    open_phases_leave_room(rules);
    let mut replay = OpenReplay::open(alloc, world, header)?;
    for item in script.as_slice() {
        make_next(&mut replay, header, rules, item, taker)?;
    }
    Ok(replay.close())
}

/// Makes the next line, and hands on what it answers.
#[inline]
fn make_next<N: Rule, P: Rule, A: AnswerTaker>(
    replay: &mut OpenReplay,
    header: &Header,
    rules: &Rules<N, P>,
    item: &Item,
    taker: &mut A,
) -> Result<(), Memory>
    requires header { IsHeader header.now }
    requires may { MayMakeLine header.now item.now.lane item.now.act replay.old.tables }
    requires volumes { AreVolumesOf header.now replay.old.volumes }
    ensures { OnOk result (AnswersLine header.now (P.answers rules.now.pressure) (N.answers rules.now.normal) item.now
        replay.old replay.new (A.Takes header.now) taker.old taker.new) }
{
    match replay.take(header, rules, item) {
        Some(answer) => taker.take(header, item.number, &answer),
        None => Ok(()),
    }
}
