use std::alloc::Global;

/// What lanes run on: the threads and the waiting of `rt`, memory, and the gate that each lane calls. No contract says
/// anything of them.
#[derive(Drop)]
pub struct Host<'a, R, G> {
    pub rt: &'a R,
    pub alloc: Global,
    pub gate: &'a G,
}
