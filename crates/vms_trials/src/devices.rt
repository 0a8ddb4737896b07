/// How a source gives bytes and a sink takes them. A call moves a byte at least.
#[derive(Clone, Copy)]
pub struct Devices<'a> {
    /// The most bytes that a read gives.
    pub read: usize,
    /// The numbers of the reads that fail, from 1.
    pub failing_reads: &'a [u32],
    /// The most bytes that a write takes.
    pub write: usize,
    /// The numbers of the writes that fail, from 1.
    pub failing_writes: &'a [u32],
    /// How many bytes the sink takes in all.
    pub room: usize,
}

/// Devices that never fail.
pub const SOUND: Devices<'static> = Devices {
    read: 65536,
    failing_reads: &[],
    write: 65536,
    failing_writes: &[],
    room: 65536,
};
