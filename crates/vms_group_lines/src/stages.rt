use crate::GroupHeader;

/// How far a header was read.
#[derive(Debug, Drop)]
pub enum GroupStage {
    Opening,
    Versioned,
    /// The CPUs, and the groups that were declared so far.
    Declaring(GroupHeader),
}

/// What a line makes of a stage.
#[derive(Debug, Drop)]
pub enum HeadStep {
    Goes(GroupStage),
    /// The `go` line.
    Ends(GroupHeader),
}
