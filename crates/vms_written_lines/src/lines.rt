use crate::WideStep;

/// What a line after `history 1` says.
#[derive(Clone, Copy, Debug, PartialEq, Eq)]
pub enum WrittenLine {
    /// Nothing: the line is blank, or a remark.
    Blank,
    /// That a phase begins.
    Phase,
    /// That the pass of this number makes a step.
    Event(u64, WideStep),
}
