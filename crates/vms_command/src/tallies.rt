ghost use Rattle.std.specs.Prelude.{◌≡◌, ◌+◌, ◌<◌, ◌^◌, Ok};
ghost use Rattle.vms_command.specs.Limits.{is_report};

use vms_line::{Boundary, Line, LineCause};
use vms_stream::Status;

/// The most phases that have a lane line.
const MOST_PHASES: u32 = 10_000;

/// The most reports.
const MOST_REPORTS: u32 = 1_000;

/// What the lines of a body came to, in numbers.
#[derive(Clone, Copy, Debug)]
pub(crate) struct Tally {
    /// The lines that count.
    pub(crate) accepted: u32,
    /// The lines that don't count and aren't ignored.
    pub(crate) refused: u32,
    /// The phases that have a lane line.
    pub(crate) phases: u32,
    pub(crate) reports: u32,
    /// Whether the last line that counts is a lane's.
    pub(crate) in_phase: bool,
}

impl Tally {
    ghost use Rattle.vms_text.specs.declared.acts.Act.{Act};
    ghost use Rattle.vms_text.specs.declared.acts.Lane.{Lane};
    ghost use Rattle.vms_command.specs.Lines.{LinesAbove, nothing_above};
    ghost use Rattle.vms_command.specs.Tallies.{Adds, IsTallyOf};

    /// Before the first line.
    pub(crate) fn zero() -> Tally
        ensures { IsTallyOf nothing_above result }
    {
        Tally {
            accepted: 0,
            refused: 0,
            phases: 0,
            reports: 0,
            in_phase: false,
        }
    }

    /// Adds a line by what was judged of it, unless it exceeds a limit.
    pub(crate) fn count(&mut self, judged: &Result<Line, LineCause>) -> Option<Status>
        requires accepted { self.old.accepted + 1 < 2 ^ 32 }
        requires refused { self.old.refused + 1 < 2 ^ 32 }
        ensures { (above : LinesAbove) → IsTallyOf above self.old → Adds above judged.now result self.new }
    {
        match judged {
            Ok(line) => self.add(line),
            Err(_) => {
                self.refused += 1;
                None
            }
        }
    }

    /// Adds a line that counts, unless it opens a phase too many or is a report too many. A blank line changes nothing.
    fn add(&mut self, line: &Line) -> Option<Status>
        requires { self.old.accepted + 1 < 2 ^ 32 }
        ensures { (above : LinesAbove) → IsTallyOf above self.old → Adds above (Ok line.now) result self.new }
    {
        match *line {
            Line::Blank => None,
            Line::Lane(_, _) => self.add_lane(),
            Line::Boundary(boundary) => self.add_boundary(boundary),
        }
    }

    /// Adds a line of a lane.
    fn add_lane(&mut self) -> Option<Status>
        requires { self.old.accepted + 1 < 2 ^ 32 }
        ensures { (above : LinesAbove) (lane : Lane) (act : Act) → IsTallyOf above self.old →
            Adds above (Ok (Line.Lane lane act)) result self.new }
    {
        if self.in_phase {
            self.accepted += 1;
            return None;
        }
        if self.phases >= MOST_PHASES {
            return Some(Status::TooLong);
        }
        self.phases += 1;
        self.in_phase = true;
        self.accepted += 1;
        None
    }

    /// Adds a boundary line.
    fn add_boundary(&mut self, boundary: Boundary) -> Option<Status>
        requires { self.old.accepted + 1 < 2 ^ 32 }
        ensures { (above : LinesAbove) → IsTallyOf above self.old
            → Adds above (Ok (Line.Boundary boundary)) result self.new }
    {
        if !is_report(boundary) {
            self.in_phase = false;
            self.accepted += 1;
            return None;
        }
        if self.reports >= MOST_REPORTS {
            return Some(Status::TooLong);
        }
        self.reports += 1;
        self.in_phase = false;
        self.accepted += 1;
        None
    }
}

/// Whether a boundary line is a report.
fn is_report(boundary: Boundary) -> bool
    ensures { result ≡ is_report boundary }
{
    matches!(boundary, Boundary::Report(_))
}
