/// What is so of facts and a list of events, which stand the oldest first.
#[derive(Clone, Copy, Debug, PartialEq, Eq)]
pub enum Verdict {
    /// No history may begin with the facts.
    NoBase,
    /// The event at this index is the first that isn't legal.
    Illegal(usize),
    /// A legal history, in which some pass lives.
    Open,
    /// A legal history, in which every pass has ended.
    Complete,
}
