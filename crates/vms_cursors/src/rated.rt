ghost use Rattle.std.specs.Prelude.{◌≡◌, ◌<◌, slice_set};

use crate::OnlineCpus;

/// What a call that gives thresholds knows: which CPUs were online, and by zone which threshold it got, in pages.
#[derive(Clone, Copy, Debug, PartialEq, Eq)]
pub struct Rated {
    pub online: OnlineCpus,
    pub thresholds: [u32; 16],
}

impl Rated {
    /// These CPUs, and no thresholds.
    pub fn begin(online: OnlineCpus) -> Rated
        ensures { result.online ≡ online }
    {
        Rated {
            online,
            thresholds: [0; 16],
        }
    }

    /// With the threshold that a zone got.
    pub fn with(self, zone: u32, threshold: u32) -> Rated
        requires { zone < 16 }
        ensures online { result.online ≡ self.online }
        ensures thresholds { result.thresholds ≡ slice_set self.thresholds zone threshold }
    {
        let mut thresholds = self.thresholds;
        thresholds[zone as usize] = threshold;
        Rated {
            online: self.online,
            thresholds,
        }
    }
}
