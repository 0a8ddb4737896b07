ghost use Rattle.vms_gen.specs.Texts.{IsCpuCount};

use crate::made_lines::{last_text, line_text, next_state};
use crate::spelling::LineText;

/// The lines that aren't made yet.
#[derive(Drop)]
pub(crate) struct Unmade {
    pub(crate) cpus: u32,
    pub(crate) state: u64,
    /// How many lines the states after this one make, before the last line; none once that was made.
    pub(crate) lines: Option<u32>,
    ghost in_range: { IsCpuCount cpus },
}

impl Unmade {
    ghost use Rattle.std.specs.Prelude.{◌≡◌, ◌<◌, ◌++◌, [], flat_map, length, IfNone, IfSome};
    ghost use Rattle.vms_text.specs.Common.{sentence};
    ghost use Rattle.vms_gen.specs.Left.{lines_left};

    /// Makes the next line.
    pub(crate) fn next_line(&mut self) -> Option<LineText>
        ensures some { IfSome result (λ line. flat_map sentence (lines_left self.old)
            ≡ line.items ++ flat_map sentence (lines_left self.new)) }
        ensures filled { IfSome result (λ line. 0 < length line.items) }
        ensures none { IfNone result (lines_left self.old ≡ []) }
        ensures ended { IfNone result (lines_left self.new ≡ []) }
    {
        match self.lines? {
            0 => {
                self.lines = None;
                Some(last_text())
            }
            lines => {
                self.state = next_state(self.state);
                self.lines = Some(lines - 1);
                Some(line_text(self.cpus, self.state))
            }
        }
    }
}
