ghost use Rattle.std.specs.Prelude.{◌≡◌};
ghost use Rattle.vms_base.specs.Common.{IsHeader};
ghost use Rattle.vms_line.specs.Common.{read_line};

use crate::{LineJudge, PhaseScript};
use std::alloc::{AllocError, Global};
use vms_base::{Header, Memory};
use vms_line::{Act, Boundary, Item, Lane, Line, LineCause, parse_line, parse_spelled};
use vms_text::KeptLane;

/// What a line that was fed came to.
#[derive(Clone, Copy, Debug, PartialEq, Eq)]
pub enum Fed {
    /// It is ignored.
    Blank,
    /// A lane line that counts. The scripter holds it.
    Kept,
    /// A boundary line that counts. The phase so far ends with it, if it has a line.
    Boundary(Boundary),
}

/// Why a line wasn't taken.
#[derive(Clone, Copy, Debug, PartialEq, Eq, thiserror::Error)]
pub enum FeedError {
    #[error("the line doesn't count")]
    Refused(LineCause),
    #[error("out of memory")]
    Memory,
}

impl From<AllocError> for FeedError {
    ghost use Rattle.std.specs.Prelude.{◌≡◌};
    ghost use Rattle.vms_script.specs.declared.scripters.FeedError.TheVariants as errors;

    ghost from_gives = { λ _ error. error ≡ errors.Memory };

    fn from(_error: AllocError) -> FeedError {
        FeedError::Memory
    }
}

/// Collects the lane lines of a body that count, phase by phase.
#[derive(Drop)]
pub struct Scripter {
    pub(crate) judge: LineJudge,
    /// The lane lines since the last phase was taken.
    pub(crate) items: Vec<Item>,
    pub(crate) alloc: Global,
}

impl Scripter {
    ghost use Rattle.std.specs.Prelude.{◌≡◌, ◌<◌, ◌≤◌, All, IfOk, IsErrOf, vec_capacity, vec_len};
    ghost use Rattle.vms_base.specs.Common.{IsHeader};
    ghost use Rattle.vms_text.specs.Common.{IsKeepableLane};
    ghost use Rattle.vms_script.specs.JudgeStates.{MayJudge};
    ghost use Rattle.vms_script.specs.Scripts.{Feeds, FeedsLine, HoldsScript, IsFedLine, IsOpenScript, Script};
    ghost use Rattle.vms_script.specs.Scripts.{SomeScripter, Takes, first_script};

    /// A scripter before the first line of a body with this header.
    pub fn make(alloc: Global, header: &Header) -> Result<Scripter, Memory>
        requires { IsHeader header.now }
        ensures { IfOk result (λ scripter. HoldsScript (first_script header.now) scripter) }
    {
        Ok(Scripter {
            judge: LineJudge::make(alloc, header)?,
            items: Vec::new(alloc),
            alloc,
        })
    }

    /// Takes in a line of the body, which has this number in the text. It is refused where it doesn't count. After a
    /// boundary line that counts the phase is taken before the next line.
    pub fn feed(&mut self, header: &Header, number: u32, line: &[u8]) -> Result<Fed, FeedError>
        requires header { IsHeader header.now }
        requires scripter { SomeScripter header.now self.old }
        requires number { All (λ item. item.number < number) self.old.items.items }
        requires few { vec_len self.old.items < 1000000 }
        ensures fed { (script : Script) → script.header ≡ header.now → IsOpenScript script →
            HoldsScript script self.old →
            Feeds number line.now script self.new result }
        ensures full { IsErrOf result FeedError.Memory → vec_capacity self.old.items ≤ vec_len self.old.items }
    {
        match read(header, line) {
            Ok(Line::Blank) => Ok(Fed::Blank),
            Ok(Line::Lane(lane, act)) => self.keep(number, lane, act),
            Ok(Line::Boundary(boundary)) => self.cross(number, boundary),
            Err(cause) => Err(FeedError::Refused(cause)),
        }
    }

    /// Takes the lane lines so far, in the order of the text. The scripter then holds none.
    pub fn take_phase(&mut self) -> PhaseScript
        requires { (script : Script) × HoldsScript script self.old }
        ensures { (script : Script) → HoldsScript script self.old → Takes script result self.new }
    {
        PhaseScript::make(std::mem::replace(&mut self.items, Vec::new(self.alloc)))
    }

    /// Keeps a line of a lane, if it counts.
    #[inline(always)]
    fn keep(&mut self, number: u32, lane: Lane, act: Act) -> Result<Fed, FeedError>
        requires judge { MayJudge self.old.judge (Line.Lane lane act) }
        requires lane { IsKeepableLane lane }
        requires number { All (λ item. item.number < number) self.old.items.items }
        requires few { vec_len self.old.items < 1000000 }
        ensures fed { (script : Script) → IsFedLine (Line.Lane lane act) script self.old →
            FeedsLine number (Line.Lane lane act) script self.new result }
        ensures full { IsErrOf result FeedError.Memory → vec_capacity self.old.items ≤ vec_len self.old.items }
    {
        match self.judge.effect(Line::Lane(lane, act)) {
            Ok(effect) => {
                // Room before the change: a line that finds none has changed nothing.
                self.items.reserve(1)?;
                self.judge.apply(effect);
                self.items.push_reserved(Item {
                    number,
                    lane: KeptLane::of(lane),
                    act,
                });
                Ok(Fed::Kept)
            }
            Err(cause) => Err(FeedError::Refused(cause)),
        }
    }

    /// Takes in a boundary line, if it counts.
    fn cross(&mut self, number: u32, boundary: Boundary) -> Result<Fed, FeedError>
        requires judge { MayJudge self.old.judge (Line.Boundary boundary) }
        requires number { All (λ item. item.number < number) self.old.items.items }
        requires few { vec_len self.old.items < 1000000 }
        ensures { (script : Script) → IsFedLine (Line.Boundary boundary) script self.old →
            FeedsLine number (Line.Boundary boundary) script self.new result }
    {
        match self.judge.decide(Line::Boundary(boundary)) {
            Ok(_) => Ok(Fed::Boundary(boundary)),
            Err(cause) => Err(FeedError::Refused(cause)),
        }
    }
}

/// Reads a line of the body, in any spelling.
#[inline(always)]
fn read(header: &Header, line: &[u8]) -> Result<Line, LineCause>
    requires { IsHeader header.now }
    ensures { result ≡ read_line header.now line.now }
{
    match parse_spelled(header, line) {
        Some(said) => Ok(said),
        None => parse_line(header, line),
    }
}
