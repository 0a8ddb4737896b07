/// A step with the number of the pass that made it. The main pass has number 0.
#[derive(Clone, Copy, Debug, PartialEq, Eq)]
pub struct Event<K> {
    pub caller: u32,
    pub step: K,
}
