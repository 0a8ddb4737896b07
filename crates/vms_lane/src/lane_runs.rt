ghost use Rattle.std.specs.Prelude.{◌≡◌, ◌+◌, ◌<◌, ◌≤◌, ◌++◌, [], map, All, IfOk, IfSome, OnOk, OnErr, vec_capacity};
ghost use Rattle.std.specs.Prelude.{vec_len};
ghost use Rattle.vms_answers.specs.Common.{with_answer, IsKeepableAnswer, answer_of_kept};
ghost use Rattle.vms_world.specs.Common.{IsHeader, IsActOf};
ghost use Rattle.vms_tables.specs.Common.{AreTables, world_of};
ghost use Rattle.vms_lane.specs.LanePasses.{AreReadyFor, HaveSpentAll, MayMakeActs, passes_in};
ghost use Rattle.vms_lane.specs.Scripts.{MakeLines, acts_in};

use crate::Host;
use crate::lane_lines::LaneLines;
use crate::line_runs::run_line;
use crate::passes::LanePasses;
use std::sync::Wait;
use vms_answers::{Answer, NumberedAnswer};
use vms_base::{Header, Memory};
use vms_calc::{Rule, Rules};
use vms_jobs::Gate;
use vms_script::is_of;
use vms_tables::Tables;
use vms_text::Lane;

/// Makes the lines of a lane one after another, whatever other lanes make meanwhile, and returns what they answer. Room
/// for all answers is reserved first: where no memory is found no step was made. It may wait for the locks of percpu
/// counters. Before the steps of each line it calls the gate with the number of the lane's CPU, or that of the CPUs for
/// the control lane, and the number of the line.
pub fn run_lane<R: Wait, G: Gate, N: Rule, P: Rule>(
    host: &Host<'_, R, G>,
    tables: &Tables,
    header: &Header,
    rules: &Rules<N, P>,
    passes: &mut LanePasses,
    lane: Lane,
    lines: &LaneLines<'_>,
) -> Result<Vec<NumberedAnswer>, Memory>
    requires header { IsHeader header.now }
    requires tables { AreTables header.now tables.now }
    requires passes { AreReadyFor tables.now lane passes.old }
    requires acts { All (λ item. IsActOf header.now lane item.act) lines.now }
    requires may { MayMakeActs tables.now (acts_in lines.now) passes.old }
    ensures makes { IfOk result (λ answers. MakeLines header.now (P.answers rules.now.pressure)
        (N.answers rules.now.normal) (world_of tables.now) lane lines.now (passes_in passes.new)
        (passes_in passes.old) (map answer_of_kept answers.items)) }
    ensures spends { OnOk result (HaveSpentAll (acts_in lines.now) passes.new passes.old) }
    ensures ready { AreReadyFor tables.now lane passes.new }
    ensures err { OnErr result (passes.new ≡ passes.old) }
{
    let own = lines.lane;
    let number = lane_number(header, lane);
    let mut answers = Vec::with_capacity(host.alloc, lines.len())?;
    for item in lines.script.as_slice() {
        if is_of(own, item) {
            host.gate.at(number, item.number);
            let answer = run_line(host.rt, tables, header, rules, passes, lane, item.act);
            note(&mut answers, item.number, answer);
        }
    }
    passes.are_live();
    Ok(answers)
}

/// The number of a lane at the gate.
#[inline]
fn lane_number(header: &Header, lane: Lane) -> u32 {
    match lane {
        Lane::Cpu(cpu) => cpu.number,
        Lane::Control => header.layout.cpus(),
    }
}

/// Adds the answer of the line of this number, if it has one: there is room for it.
#[inline]
fn note(answers: &mut Vec<NumberedAnswer>, number: u32, answer: Option<Answer>)
    requires room { vec_len answers.old < vec_capacity answers.old }
    requires keepable { IfSome answer IsKeepableAnswer }
    ensures answers { map answer_of_kept answers.new.items
        ≡ map answer_of_kept answers.old.items ++ with_answer number answer [] }
    ensures len { vec_len answers.new ≤ vec_len answers.old + 1 }
    ensures capacity { vec_capacity answers.new ≡ vec_capacity answers.old }
{
    if let Some(answer) = answer {
        answers.push_reserved(NumberedAnswer::of(number, answer));
    }
}
