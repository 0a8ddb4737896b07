use vms_line::LineCause;

/// A line of an open phase that prints something once the phase is made, in 8 bytes.
#[derive(Clone, Copy, Debug)]
pub enum Wait {
    /// The line of this number answers.
    Answer(u32),
    /// The line of this number doesn't count, for this cause, and stands after one that answers.
    Refused(LineCause, u32),
}
