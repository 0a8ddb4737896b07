/// Why a line of the body doesn't count. The first cause that holds is told.
#[derive(Clone, Copy, Debug, PartialEq, Eq)]
pub enum LineCause {
    /// A byte that no trace has, a first or second word that isn't listed, or a wrong number of words.
    Malformed,
    /// A number is spelled wrongly or is out of its range.
    BadNumber,
    /// The machine hasn't this CPU.
    UnknownLane,
    /// The machine hasn't this place.
    UnknownPlace,
    /// The place hasn't this item, or there is no such event.
    UnknownItem,
    /// The header declares no percpu counter of this name.
    UnknownCounter,
    /// More than 200 bytes.
    LineTooLong,
    /// The CPU isn't online.
    NotOnline,
    /// The CPU would change the counter by more than 2^48 in absolute sum over the run.
    Overflow,
    /// The CPU isn't dead, or is online where it is to come up.
    NotDead,
    /// The CPU is dead and its differentials aren't folded yet.
    NotFolded,
    /// The CPU is the only one that is online.
    LastCpu,
    /// An amount in bytes is no number of whole pages.
    NotPages,
}
