/// A value with the number of its writer, such as a cell of a table that several writers use in turn. What one of them
/// wrote, the next one doesn't find, and nothing has to be cleared.
#[derive(Clone, Copy, Debug)]
pub struct Stamped<T> {
    pub writer: u64,
    pub value: T,
}

impl<T: Copy> Stamped<T> {
    ghost use Rattle.std.specs.Prelude.{◌≡◌};
    ghost use Rattle.vms_cells.specs.Stamps.{written_by};

    /// The value, if it is of this writer.
    #[inline]
    pub fn by(self, writer: u64) -> Option<T>
        ensures { result ≡ written_by writer self }
    {
        if self.writer == writer {
            Some(self.value)
        } else {
            None
        }
    }
}
