/// What each lane of a phase calls before the steps of each of its lines, on its own thread. No contract says what a
/// gate does: the lines mean the same whatever it is.
pub trait Gate: Sync {
    /// A lane is about to make the line of this number, counted from 1 in the trace. `lane` is the number of the lane's
    /// CPU, and that of the CPUs for the control lane.
    fn at(&self, lane: u32, line: u32);
}

/// The gate that holds no lane up.
#[derive(Clone, Copy, Debug, Drop)]
pub struct OpenGate;

impl Gate for OpenGate {
    fn at(&self, _lane: u32, _line: u32) {}
}
