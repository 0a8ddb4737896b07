ghost use Rattle.std.specs.Prelude.{◌≡◌, ◌+◌, ◌<◌, ◌^◌, Ok};

use vms_group_lines::{GroupCause, GroupLine};
use vms_stream::Status;

/// The most phases that have a lane line.
const MOST_PHASES: u32 = 10_000;

/// The most reports.
const MOST_REPORTS: u32 = 1_000;

/// What the lines of a body came to, in numbers.
#[derive(Clone, Copy, Debug)]
pub(crate) struct Tally {
    /// The lines that count.
    pub(crate) accepted: u32,
    /// The lines that don't count and aren't ignored.
    pub(crate) refused: u32,
    /// The phases that have a lane line.
    pub(crate) phases: u32,
    pub(crate) reports: u32,
    /// Whether the last line that counts is a lane's.
    pub(crate) in_phase: bool,
}

impl Tally {
    ghost use Rattle.std.specs.Prelude.{ℕ, List, []};
    ghost use Rattle.vms_history.specs.Common.{CpuId};
    ghost use Rattle.vms_group_core.specs.declared.call_values.GroupCall.{GroupCall};
    ghost use Rattle.vms_group_lines.specs.declared.lines.GroupLine.{GroupLine};
    ghost use Rattle.vms_groups.specs.GroupTallies.{Adds, IsTallyOf};

    /// Before the first line.
    pub(crate) fn zero() -> Tally
        ensures { IsTallyOf [] 0 result }
    {
        Tally {
            accepted: 0,
            refused: 0,
            phases: 0,
            reports: 0,
            in_phase: false,
        }
    }

    /// Adds a line by what was judged of it, unless it exceeds a limit.
    pub(crate) fn count(&mut self, judged: Result<GroupLine, GroupCause>) -> Option<Status>
        requires accepted { self.old.accepted + 1 < 2 ^ 32 }
        requires refused { self.old.refused + 1 < 2 ^ 32 }
        ensures { (lines : List GroupLine) (refused : ℕ) → IsTallyOf lines refused self.old →
            Adds lines refused judged result self.new }
    {
        match judged {
            Ok(line) => self.add(line),
            Err(_) => {
                self.refused += 1;
                None
            }
        }
    }

    /// Adds a line that counts, unless it opens a phase too many or is a report too many. A blank line changes nothing.
    fn add(&mut self, line: GroupLine) -> Option<Status>
        requires { self.old.accepted + 1 < 2 ^ 32 }
        ensures { (lines : List GroupLine) (refused : ℕ) → IsTallyOf lines refused self.old →
            Adds lines refused (Ok line) result self.new }
    {
        match line {
            GroupLine::Blank => None,
            GroupLine::Lane(_, _) => self.add_lane(),
            GroupLine::Sync => {
                self.in_phase = false;
                self.accepted += 1;
                None
            }
            GroupLine::Report => self.add_report(),
        }
    }

    /// Adds a line of a lane.
    fn add_lane(&mut self) -> Option<Status>
        requires { self.old.accepted + 1 < 2 ^ 32 }
        ensures { (lines : List GroupLine) (refused : ℕ) (cpu : CpuId) (call : GroupCall) →
            IsTallyOf lines refused self.old →
            Adds lines refused (Ok (GroupLine.Lane cpu call)) result self.new }
    {
        if self.in_phase {
            self.accepted += 1;
            return None;
        }
        if self.phases >= MOST_PHASES {
            return Some(Status::TooLong);
        }
        self.phases += 1;
        self.in_phase = true;
        self.accepted += 1;
        None
    }

    /// Adds a report.
    fn add_report(&mut self) -> Option<Status>
        requires { self.old.accepted + 1 < 2 ^ 32 }
        ensures { (lines : List GroupLine) (refused : ℕ) → IsTallyOf lines refused self.old →
            Adds lines refused (Ok GroupLine.Report) result self.new }
    {
        if self.reports >= MOST_REPORTS {
            return Some(Status::TooLong);
        }
        self.reports += 1;
        self.in_phase = false;
        self.accepted += 1;
        None
    }
}
