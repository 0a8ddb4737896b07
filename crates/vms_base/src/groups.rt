ghost use Rattle.vms_base.specs.Groups.{AreBytes};

/// The differentials of one CPU in one group, in pages, each from -128 to 127.
#[derive(Clone, Copy, Debug, PartialEq, Eq)]
pub struct Diffs {
    pub values: [i64; 8],
    pub ghost bytes: { AreBytes values },
}

impl Diffs {
    ghost use Rattle.std.specs.Prelude.{◌≡◌, replicate, pos};

    /// Eight times 0.
    #[inline]
    pub fn zeros() -> Diffs
        ensures { result.values ≡ replicate 8 (pos 0) }
    {
        Diffs { values: [0; 8] }
    }
}
