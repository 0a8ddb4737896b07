use crate::Body;
use crate::tallies::Tally;
use std::alloc::Global;
use vms_base::{Header, Memory};
use vms_script::LineJudge;
use vms_stream::Status;

/// A command on its way through a body. It keeps what later lines are judged by, and no line.
#[derive(Drop)]
pub(crate) struct BodyJob<B> {
    pub(crate) header: Header,
    pub(crate) judge: LineJudge,
    pub(crate) tally: Tally,
    pub(crate) body: B,
}

impl<B: Body> BodyJob<B> {
    ghost use Rattle.std.specs.Prelude.{suc, ◌≤◌, IfOk};
    ghost use Rattle.vms_header.specs.Common.{IsWritable};
    ghost use Rattle.vms_stream.specs.Common.{ClosesPhased, TakesPhased, Waiting, waiting};
    ghost use Rattle.vms_command.specs.Bodies.{shown_given};
    ghost use Rattle.vms_command.specs.Commands.{CommandState, following};
    ghost use Rattle.vms_command.specs.Limits.{most_lines};
    ghost use Rattle.vms_command.specs.JobStates.{BeginsBody, InBody, InSomeBody};

    /// Begins before the first line, and appends what is printed there.
    pub(crate) fn begin(
        alloc: Global,
        header: Header,
        out: &mut Vec<u8>,
    ) -> Result<BodyJob<B>, Memory>
        requires { IsWritable header }
        ensures { IfOk result (λ job. BeginsBody B.command B.Stands header out.old.items out.new.items job) }
    {
        let judge = LineJudge::make(alloc, &header)?;
        let body = B::begin(alloc, &header, out)?;
        Ok(BodyJob {
            header,
            judge,
            tally: Tally::zero(),
            body,
        })
    }

    /// Judges the line of this number, and appends what is printed of it.
    pub(crate) fn take_line(
        &mut self,
        engine: &mut B::Engine,
        number: u32,
        line: &[u8],
        out: &mut Vec<u8>,
    ) -> Result<Option<Status>, Memory>
        requires body { (now : Waiting (CommandState B.Kept) B.Outcome) × InBody B.Stands number self.old now }
        requires most { number ≤ most_lines }
        ensures { TakesPhased (waiting (following B.command)) (InBody B.Stands number self.old)
            (InBody B.Stands (suc number) self.new) (B.made engine.old) (B.made engine.new) line.now result
            out.old.items out.new.items }
    {
        let judged = self.judge.judge(&self.header, line);
        if let Some(halt) = self.tally.count(&judged.said) {
            return Ok(Some(halt));
        }
        self.body
            .take_line(engine, &self.header, number, &judged, out)?;
        Ok(None)
    }

    /// Appends what is printed at the end of the trace, and says how the command ends.
    pub(crate) fn end(
        &mut self,
        engine: &mut B::Engine,
        out: &mut Vec<u8>,
    ) -> Result<Status, Memory>
        requires { (now : Waiting (CommandState B.Kept) B.Outcome) × InSomeBody B.Stands self.old now }
        ensures { ClosesPhased (waiting (following B.command)) (InSomeBody B.Stands self.old) (shown_given B.Shows)
            (B.made engine.old) (B.made engine.new) result out.old.items out.new.items }
    {
        self.body.end(
            engine,
            &self.header,
            self.tally.accepted,
            self.tally.refused,
            out,
        )
    }
}
