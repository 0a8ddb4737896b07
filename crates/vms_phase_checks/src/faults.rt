/// Why a line of a written history is at fault, in the order in which the causes are tried.
#[derive(Clone, Copy, Debug, PartialEq, Eq, thiserror::Error)]
pub enum EventCause {
    /// The line isn't in form, or it is an event before the first phase.
    #[error("the line isn't one of a written history")]
    BadEvent,
    /// The condition of the event doesn't hold in the state before it.
    #[error("the event isn't legal")]
    Illegal,
    /// The event isn't one of the lines of its lane, its pass begins for no lane or a second time, or ends too early,
    /// or the phase comes after the last.
    #[error("the event isn't one of the lines of the phase")]
    NotInScript,
    /// The phase before isn't over, or a phase is missing at the end.
    #[error("a phase isn't whole")]
    Incomplete,
}
