ghost use Rattle.std.specs.Prelude.{◌≡◌};
ghost use Rattle.vms_page_passes.specs.Notes.{loading, taking};

/// What a pass did in a place of its own CPU since it last loaded the own threshold.
#[derive(Clone, Copy, Debug)]
pub struct Loaded {
    /// The threshold, in pages, and how often it was set.
    pub t: u32,
    pub number: u32,
    /// Whether a put was made in the place.
    pub put: bool,
    /// Whether the place's first group and its last group were taken, which are one group where a place has 8 counters.
    pub took_first: bool,
    pub took_last: bool,
}

impl Loaded {
    /// A load of a threshold, after which nothing was done yet.
    #[inline]
    pub(crate) fn make(t: u32, number: u32) -> Loaded
        ensures { result ≡ loading t number }
    {
        Loaded {
            t,
            number,
            put: false,
            took_first: false,
            took_last: false,
        }
    }

    /// The same after a take of the place's first group, of its last one, or of one that is both.
    #[inline]
    pub(crate) fn taking(self, first: bool, last: bool) -> Loaded
        ensures { result ≡ taking first last self }
    {
        Loaded {
            took_first: first || self.took_first,
            took_last: last || self.took_last,
            ..self
        }
    }
}
