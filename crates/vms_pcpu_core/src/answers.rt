/// What a comparison answers.
#[derive(Clone, Copy, Debug, PartialEq, Eq)]
pub struct Compare {
    /// 1, 0 or -1: the counter is above the other number, equal to it or below it.
    pub sign: i8,
    /// Whether the shared part alone decided.
    pub rough: bool,
}

/// What a call answers.
#[derive(Clone, Copy, Debug, PartialEq, Eq)]
pub enum PcpuAnswer {
    /// Nothing.
    Done,
    /// Whether a limited addition was made.
    Limited(bool),
    Compared(Compare),
    /// The sum over all CPUs.
    Total(i64),
    /// The shared part.
    Count(i64),
}
