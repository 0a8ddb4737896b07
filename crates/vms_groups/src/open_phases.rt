ghost use Rattle.std.specs.Prelude.{◌≡◌, ◌≢◌, ◌++◌, ℕ, List, [], Option, Ok, Err, IfOk, OnOk};
ghost use Rattle.vms_group_lines.specs.declared.headers.GroupHeader.{GroupHeader};
ghost use Rattle.vms_group_lines.specs.Common.{IsGroupHeader};
ghost use Rattle.vms_stream.specs.Common.{Text};
ghost use Rattle.vms_groups.specs.PastPhases.{PastGroupPhase};

use crate::engines::GroupEngine;
use crate::printing::write_refused_line;
use crate::waits::{GroupWait, write_waits};
use std::alloc::Global;
use std::mem::replace;
use vms_base::{CpuId, Memory};
use vms_command::write_prefix;
use vms_group_core::GroupCall;
use vms_group_lines::{GroupCause, GroupHeader, GroupLine};
use vms_group_phase::{GroupItem, GroupWorld, group_phases_add_their_lines, group_phases_lead_on};
use vms_group_report::write_group_report;

/// The open phase of a body. It has no line where none is open.
#[derive(Drop)]
pub(crate) struct OpenPhase {
    pub(crate) alloc: Global,
    /// The world that the phase begins with. There is none while the phase is made.
    pub(crate) world: Option<GroupWorld>,
    /// The lines of the phase.
    pub(crate) items: Vec<GroupItem>,
    /// The lines that print something once the phase is made, from its first one on that asks for a value.
    pub(crate) waits: Vec<GroupWait>,
}

impl OpenPhase {
    ghost use Rattle.vms_groups.specs.GroupStates.{EndsPhase, PhaseStands, SomePhase, TakesJudged};
    ghost use Rattle.vms_groups.specs.GroupTexts.{GroupsKept, first_kept, report_lines};

    /// Before the first line of a body.
    pub(crate) fn begin(alloc: Global, header: &GroupHeader) -> Result<OpenPhase, Memory>
        requires { IsGroupHeader header.now }
        ensures { IfOk result (PhaseStands header.now (first_kept header.now) []) }
    {
        group_phases_lead_on();
        Ok(OpenPhase {
            alloc,
            world: Some(GroupWorld::first(alloc, &header.tree)?),
            items: Vec::new(alloc),
            waits: Vec::new(alloc),
        })
    }

    /// Takes the line of this number, of which this was judged, and appends what it prints.
    pub(crate) fn take<E: GroupEngine>(
        &mut self,
        engine: &mut E,
        header: &GroupHeader,
        number: u32,
        judged: Result<GroupLine, GroupCause>,
        out: &mut Vec<u8>,
    ) -> Result<(), Memory>
        requires header { IsGroupHeader header.now }
        requires phase { SomePhase header.now judged self.old }
        ensures { TakesJudged header.now number judged self.old self.new (E.made engine.old) (E.made engine.new) result
            out.old.items out.new.items }
    {
        match judged {
            Ok(GroupLine::Blank) => Ok(()),
            Ok(GroupLine::Lane(cpu, call)) => self.keep(number, cpu, call),
            Ok(GroupLine::Sync) => self.end(engine, header, out),
            Ok(GroupLine::Report) => self.end_with_report(engine, header, number, out),
            Err(cause) => self.refuse(number, cause, out),
        }
    }

    /// Keeps a line of a lane for the phase.
    fn keep(&mut self, number: u32, cpu: CpuId, call: GroupCall) -> Result<(), Memory>
        ensures { (header : GroupHeader) (made : Option (List PastGroupPhase)) (out : List ℕ) →
            TakesJudged header number (Ok (GroupLine.Lane cpu call)) self.old self.new made made result out out }
    {
        ask(&mut self.waits, number, call)?;
        self.items.push(GroupItem { number, cpu, call })?;
        Ok(())
    }

    /// Prints that a line doesn't count, at once or after those that wait.
    fn refuse(&mut self, number: u32, cause: GroupCause, out: &mut Vec<u8>) -> Result<(), Memory>
        ensures { (header : GroupHeader) (made : Option (List PastGroupPhase)) →
            TakesJudged header number (Err cause) self.old self.new made made result out.old.items out.new.items }
    {
        if self.waits.is_empty() {
            return write_refused_line(out, number, cause);
        }
        self.waits.push(GroupWait::Refused(cause, number))?;
        Ok(())
    }

    /// Ends the phase, and reports by the line of this number.
    fn end_with_report<E: GroupEngine>(
        &mut self,
        engine: &mut E,
        header: &GroupHeader,
        number: u32,
        out: &mut Vec<u8>,
    ) -> Result<(), Memory>
        requires header { IsGroupHeader header.now }
        requires phase { SomePhase header.now (Ok GroupLine.Report) self.old }
        ensures { TakesJudged header.now number (Ok GroupLine.Report) self.old self.new (E.made engine.old)
            (E.made engine.new) result out.old.items out.new.items }
    {
        self.end(engine, header, out)?;
        self.report(header, number, out)
    }

    /// Makes the phase, if it has a line, and prints what waits for it. Then no phase is open.
    pub(crate) fn end<E: GroupEngine>(
        &mut self,
        engine: &mut E,
        header: &GroupHeader,
        out: &mut Vec<u8>,
    ) -> Result<(), Memory>
        requires header { IsGroupHeader header.now }
        requires phase { (kept : GroupsKept) × (texts : List (Text PastGroupPhase))
            × PhaseStands header.now kept texts self.old }
        ensures { EndsPhase header.now self.old self.new (E.made engine.old) (E.made engine.new) result
            out.old.items out.new.items }
    {
        if self.items.is_empty() {
            return Ok(());
        }
        self.make(engine, header, out)
    }

    /// Makes the phase, which has a line, and prints what waits for it.
    fn make<E: GroupEngine>(
        &mut self,
        engine: &mut E,
        header: &GroupHeader,
        out: &mut Vec<u8>,
    ) -> Result<(), Memory>
        requires header { IsGroupHeader header.now }
        requires some { self.old.items.items ≢ [] }
        requires phase { (kept : GroupsKept) × (texts : List (Text PastGroupPhase))
            × PhaseStands header.now kept texts self.old }
        ensures { EndsPhase header.now self.old self.new (E.made engine.old) (E.made engine.new) result
            out.old.items out.new.items }
    {
        let Some(world) = self.world.take() else {
            return Ok(());
        };
        group_phases_lead_on();
        group_phases_add_their_lines();
        let items = replace(&mut self.items, Vec::new(self.alloc));
        let (left, values) = engine.make_phase(&header.tree, world, items)?;
        write_waits(out, self.waits.as_slice(), values.as_slice())?;
        self.waits.clear();
        self.world = Some(left);
        Ok(())
    }

    /// Appends the report of a line of this number, below the line, where no phase is open.
    fn report(&self, header: &GroupHeader, number: u32, out: &mut Vec<u8>) -> Result<(), Memory>
        requires header { IsGroupHeader header.now }
        requires phase { (kept : GroupsKept) × (texts : List (Text PastGroupPhase))
            × PhaseStands header.now kept texts self.now }
        ensures { OnOk result ((kept : GroupsKept) (texts : List (Text PastGroupPhase)) →
            PhaseStands header.now kept texts self.now →
            out.new.items ≡ out.old.items ++ report_lines header.now number kept.world kept.past) }
    {
        let Some(world) = &self.world else {
            return Ok(());
        };
        write_prefix(out, number)?;
        out.extend_from_slice(b"report groups\n")?;
        write_group_report(out, header.names.as_slice(), &header.tree, &world.words)
    }
}

ghost use Rattle.std.specs.Prelude.{◌∷◌, if◌then◌else◌};
ghost use Rattle.vms_groups.specs.GroupTexts.{asks as asks_for_value};

/// Has the line of this number wait, if its call asks for a value.
fn ask(waits: &mut Vec<GroupWait>, number: u32, call: GroupCall) -> Result<(), Memory>
    ensures { OnOk result (waits.new.items
        ≡ waits.old.items ++ (if asks_for_value call then GroupWait.Value number ∷ [] else [])) }
{
    if asks(call) {
        waits.push(GroupWait::Value(number))?;
    }
    Ok(())
}

/// Whether a call asks for a value.
fn asks(call: GroupCall) -> bool
    ensures { result ≡ asks_for_value call }
{
    matches!(call, GroupCall::Value(_))
}
