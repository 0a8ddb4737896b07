use crate::asking::ask;
use crate::boundaries::{crossed, write_boundary_report};
use crate::rules::first_world;
use crate::{Engine, KernelRules, Wait, WaitPrinter};
use std::alloc::Global;
use std::marker::PhantomData;
use std::mem::replace;
use vms_base::{Header, Memory};
use vms_command::{Body, status_at_end, write_done_line, write_refused_line};
use vms_file_order::fitting_phases_are_phases;
use vms_line::{Act, Boundary, Item, Lane, Line, LineCause};
use vms_script::{JudgedLine, PhaseScript};
use vms_stream::Status;
use vms_text::KeptLane;
use vms_total_laws::phases_add_their_lines;
use vms_world::World;

const _: () = prove!(size_of::<Item>() == 32);

/// A replay on its way through a body, whose phases an engine makes.
#[derive(Drop)]
pub struct Replay<E> {
    pub(crate) alloc: Global,
    /// The world that the open phase begins with. There is none while a phase is made.
    pub(crate) world: Option<World>,
    /// The lines of the open phase.
    pub(crate) items: Vec<Item>,
    /// The lines that print something once the open phase is made, from its first one on that answers.
    pub(crate) waits: Vec<Wait>,
    pub(crate) engine: PhantomData<E>,
}

impl<E: Engine> Replay<E> {
    ghost use Rattle.std.specs.Prelude.{◌≡◌, ◌≢◌, ◌≤◌, ℕ, suc, List, [], Option, Some, Ok, Err, IfOk, OnOk};
    ghost use Rattle.vms_world.specs.Common.{Header, IsHeader, IsKeepableLane, MayCross, IsWorldOf};
    ghost use Rattle.vms_command.specs.Common.{SomeLine, BodyTakes, most_lines, LinesAbove, nothing_above};
    ghost use Rattle.vms_stream.specs.Common.{Text};
    ghost use Rattle.vms_world.specs.declared.worlds.World.{World};
    ghost use Rattle.vms_replay.specs.MadePhases.{PastPhase};
    ghost use Rattle.vms_replay.specs.Printing.{printed_by};
    ghost use Rattle.vms_replay.specs.Replaying.{Kept, first_kept, replaying};
    ghost use Rattle.vms_replay.specs.ReplayStates.{CrossesTo, EndsPhase, StandsBefore};

    /// Before the first line of a body.
    fn make(alloc: Global, header: &Header) -> Result<Replay<E>, Memory>
        requires { IsHeader header.now }
        ensures { IfOk result (λ replay. (n : ℕ) → 1 ≤ n →
            StandsBefore replay header.now n nothing_above (first_kept header.now) []) }
    {
        Ok(Replay {
            alloc,
            world: Some(first_world(alloc, header)?),
            items: Vec::new(alloc),
            waits: Vec::new(alloc),
            engine: PhantomData,
        })
    }

    /// Takes the line of this number, which counts.
    #[inline(always)]
    fn take(
        &mut self,
        engine: &mut E,
        header: &Header,
        number: u32,
        line: &Line,
        out: &mut Vec<u8>,
    ) -> Result<(), Memory>
        requires header { IsHeader header.now }
        requires line { SomeLine (StandsBefore self.old) header.now number (Ok line.now) }
        requires most { number ≤ most_lines }
        ensures { BodyTakes (replaying E.Makes) (StandsBefore self.old) (StandsBefore self.new)
            (E.made engine.old)
            (E.made engine.new) header.now number (Ok line.now) result out.old.items out.new.items }
    {
        match *line {
            Line::Lane(lane, act) => self.keep(number, lane, act),
            Line::Blank => Ok(()),
            Line::Boundary(boundary) => self.pass(engine, header, number, boundary, out),
        }
    }

    /// Keeps a line of a lane for the phase.
    #[inline(always)]
    fn keep(&mut self, number: u32, lane: Lane, act: Act) -> Result<(), Memory>
        requires { IsKeepableLane lane }
        ensures { (header : Header) (made : Option (List PastPhase)) (out : List ℕ) →
            IsHeader header →
            BodyTakes (replaying E.Makes) (StandsBefore self.old) (StandsBefore self.new) made
            made header number
            (Ok (Line.Lane lane act)) result out out }
    {
        ask(&mut self.waits, number, act)?;
        self.items.push(Item {
            number,
            lane: KeptLane::of(lane),
            act,
        })?;
        Ok(())
    }

    /// Prints that a line doesn't count, at once or after those that wait.
    fn refuse(&mut self, number: u32, cause: LineCause, out: &mut Vec<u8>) -> Result<(), Memory>
        ensures { (header : Header) (made : Option (List PastPhase)) →
            BodyTakes (replaying E.Makes) (StandsBefore self.old) (StandsBefore self.new) made
            made header number
            (Err cause) result out.old.items out.new.items }
    {
        if self.waits.is_empty() {
            return write_refused_line(out, number, cause);
        }
        self.waits.push(Wait::Refused(cause, number))?;
        Ok(())
    }

    /// Ends the open phase, if one is open, and goes past the boundary line of this number.
    #[inline(never)]
    fn pass(
        &mut self,
        engine: &mut E,
        header: &Header,
        number: u32,
        boundary: Boundary,
        out: &mut Vec<u8>,
    ) -> Result<(), Memory>
        requires header { IsHeader header.now }
        requires line { SomeLine (StandsBefore self.old) header.now number (Ok (Line.Boundary boundary)) }
        requires most { number ≤ most_lines }
        ensures { BodyTakes (replaying E.Makes) (StandsBefore self.old) (StandsBefore self.new)
            (E.made engine.old)
            (E.made engine.new) header.now number (Ok (Line.Boundary boundary)) result out.old.items out.new.items }
    {
        self.end_phase(engine, header, out)?;
        self.cross(header, number, boundary, out)
    }

    /// Makes the open phase, if one is open, and prints what waits for it.
    fn end_phase(
        &mut self,
        engine: &mut E,
        header: &Header,
        out: &mut Vec<u8>,
    ) -> Result<(), Memory>
        requires header { IsHeader header.now }
        requires holds { (n : ℕ) × (n ≤ suc most_lines) × (above : LinesAbove) × (kept : Kept)
            × (texts : List (Text PastPhase))
            × StandsBefore self.old header.now n above kept texts }
        ensures { EndsPhase E.Makes header.now self.old self.new (E.made engine.old) (E.made engine.new) result
            out.old.items out.new.items }
    {
        if self.items.is_empty() {
            return Ok(());
        }
        self.make_phase(engine, header, out)
    }

    /// Makes the open phase, which has a line, and prints what waits for it.
    fn make_phase(
        &mut self,
        engine: &mut E,
        header: &Header,
        out: &mut Vec<u8>,
    ) -> Result<(), Memory>
        requires header { IsHeader header.now }
        requires some { self.old.items.items ≢ [] }
        requires holds { (n : ℕ) × (n ≤ suc most_lines) × (above : LinesAbove) × (kept : Kept)
            × (texts : List (Text PastPhase))
            × StandsBefore self.old header.now n above kept texts }
        ensures { EndsPhase E.Makes header.now self.old self.new (E.made engine.old) (E.made engine.new) result
            out.old.items out.new.items }
    {
        let Some(world) = self.world.take() else {
            return Ok(());
        };
        let script = PhaseScript::make(replace(&mut self.items, Vec::new(self.alloc)));
        let mut printer = WaitPrinter {
            out: replace(out, Vec::new(self.alloc)),
            waits: replace(&mut self.waits, Vec::new(self.alloc)),
            next: 0,
        };
        E::makes_lines();
        fitting_phases_are_phases::<KernelRules>();
        phases_add_their_lines::<KernelRules>();
        let left = engine.run_phase(self.alloc, world, header, &script, &mut printer)?;
        self.put_back(left, script, printer, out)?;
        Ok(())
    }

    /// Goes on from the world that a phase left, with what it prints and with room for the lines of the next one.
    fn put_back(
        &mut self,
        left: World,
        script: PhaseScript,
        printer: WaitPrinter,
        out: &mut Vec<u8>,
    ) -> Result<(), Memory>
        ensures world { OnOk result (self.new.world ≡ Some left) }
        ensures items { OnOk result (self.new.items.items ≡ []) }
        ensures waits { OnOk result (self.new.waits.items ≡ []) }
        ensures text { OnOk result ((header : Header) → out.new.items ≡ printed_by header printer []) }
    {
        self.items = emptied(self.alloc, script.into_items());
        let (text, waits) = printer.end()?;
        *out = text;
        self.waits = waits;
        self.world = Some(left);
        Ok(())
    }

    /// Reports by a boundary line of this number, and does what it does to the world. No phase is open.
    fn cross(
        &mut self,
        header: &Header,
        number: u32,
        boundary: Boundary,
        out: &mut Vec<u8>,
    ) -> Result<(), Memory>
        requires header { IsHeader header.now }
        requires world { (w : World) × (self.old.world ≡ Some w) × IsWorldOf header.now w
            × MayCross header.now.layout w.pages boundary }
        ensures { OnOk result ((w : World) → self.old.world ≡ Some w →
            CrossesTo header.now number boundary w self.old self.new out.old.items out.new.items) }
    {
        let Some(world) = self.world.take() else {
            return Ok(());
        };
        write_boundary_report(out, header, number, boundary, &world)?;
        self.world = Some(crossed(world, header, boundary));
        Ok(())
    }
}

ghost use Rattle.std.specs.Prelude.{◌≡◌, []};

/// The most lines for which a list keeps its memory between two phases.
const MOST_KEPT: usize = 4096;

/// An empty list for the lines of the next phase, in the memory of these where that isn't much.
fn emptied(alloc: Global, items: Vec<Item>) -> Vec<Item>
    ensures { result.items ≡ [] }
{
    if items.capacity() > MOST_KEPT {
        return Vec::new(alloc);
    }
    let mut items = items;
    items.clear();
    items
}

impl<E: Engine> Body for Replay<E> {
    ghost use Rattle.vms_replay.specs.MadePhases.{PastPhase};
    ghost use Rattle.vms_replay.specs.Replaying.{Kept, shown_by_replay, replaying};
    ghost use Rattle.vms_replay.specs.ReplayStates.{StandsBefore};

    type Engine = E;

    ghost Kept = { Kept };

    ghost Outcome = { PastPhase };

    ghost command = { replaying E.Makes };

    ghost made = { E.made };

    ghost Stands = { StandsBefore };

    ghost Shows = { shown_by_replay };

    fn begin(alloc: Global, header: &Header, _out: &mut Vec<u8>) -> Result<Replay<E>, Memory> {
        Replay::make(alloc, header)
    }

    #[inline(always)]
    fn take_line(
        &mut self,
        engine: &mut E,
        header: &Header,
        number: u32,
        judged: &JudgedLine<'_>,
        out: &mut Vec<u8>,
    ) -> Result<(), Memory> {
        match &judged.said {
            Ok(line) => self.take(engine, header, number, line, out),
            Err(cause) => self.refuse(number, *cause, out),
        }
    }

    fn end(
        &mut self,
        engine: &mut E,
        header: &Header,
        accepted: u32,
        refused: u32,
        out: &mut Vec<u8>,
    ) -> Result<Status, Memory> {
        self.end_phase(engine, header, out)?;
        write_done_line(out, accepted, refused)?;
        Ok(status_at_end(refused))
    }
}
