ghost use Rattle.std.specs.Prelude.{◌≡◌, ◌-◌, ◌<◌, ◌≤◌, false, true, length, replicate, slice_set};
ghost use Rattle.vms_cursors.specs.OnlineCpus.{flagged, is_flagged, one_more};

/// Which CPUs were found online.
#[derive(Clone, Copy, Debug, PartialEq, Eq)]
pub struct OnlineCpus {
    pub flags: [bool; 128],
}

impl OnlineCpus {
    /// None.
    pub fn none() -> OnlineCpus
        ensures { result.flags ≡ replicate 128 false }
    {
        OnlineCpus {
            flags: [false; 128],
        }
    }

    /// With this CPU, which is online or not.
    pub fn with(self, cpu: u32, is_online: bool) -> OnlineCpus
        requires { cpu < 128 }
        ensures { result.flags ≡ slice_set self.flags cpu is_online }
    {
        let mut flags = self.flags;
        flags[cpu as usize] = is_online;
        OnlineCpus { flags }
    }

    /// The first CPU that is online from this one on: `cpus` where there is none below it.
    pub fn next(&self, from: u32, cpus: u32) -> u32
        requires { cpus ≤ 128 }
        ensures same { flagged self.now.flags from (cpus - from) ≡ flagged self.now.flags result (cpus - result) }
        ensures some { result < cpus → is_flagged self.now.flags result ≡ true }
        ensures most { result ≤ cpus }
    {
        for c in from..cpus {
            if self.flags[c as usize] {
                return c;
            }
        }
        cpus
    }

    /// How many of the CPUs below `cpus` are online.
    pub fn count(&self, cpus: u32) -> u32
        requires { cpus ≤ 128 }
        ensures { result ≡ length (flagged self.now.flags 0 cpus) }
    {
        let mut count = 0;
        for c in 0..cpus {
            count = counted(count, self.flags[c as usize]);
        }
        count
    }
}

/// One more where a CPU is online.
fn counted(count: u32, is_online: bool) -> u32
    requires { count < 128 }
    ensures { result ≡ one_more is_online count }
{
    if is_online { count + 1 } else { count }
}
