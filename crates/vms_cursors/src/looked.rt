ghost use Rattle.std.specs.Prelude.{◌≡◌, ◌<◌, ◌≤◌, ◌+◌, ◌*◌, ◌^◌, ◌+ℤ◌, unsigned_abs};
ghost use Rattle.vms_calls.specs.Common.{IsByte, at_least_zero};

use vms_base::CpuId;

/// What a snapshot found: at how many CPUs it has looked, and the value with the differentials of those that were
/// online, in pages.
#[derive(Clone, Copy, Debug, PartialEq, Eq)]
pub struct Looked {
    pub cpus: u32,
    pub sum: i128,
    pub ghost bounded: { unsigned_abs sum ≤ 2 ^ 63 + 128 * cpus },
}

impl Looked {
    /// The value alone.
    pub fn begin(value: i64) -> Looked
        ensures cpus { result.cpus ≡ 0 }
        ensures sum { result.sum ≡ value }
    {
        Looked {
            cpus: 0,
            sum: value as i128,
        }
    }

    /// The sum, and 0 where it is negative.
    pub(crate) fn pages(self) -> u64
        ensures { result ≡ at_least_zero self.sum }
    {
        self.sum.max(0) as u64
    }

    /// The CPU at which the snapshot looks next.
    pub fn next_cpu(self) -> CpuId
        ensures { result.number ≡ self.cpus }
    {
        CpuId { number: self.cpus }
    }

    /// One CPU more, which wasn't online.
    pub fn pass(self) -> Looked
        requires { self.cpus < 128 }
        ensures cpus { result.cpus ≡ self.cpus + 1 }
        ensures sum { result.sum ≡ self.sum }
    {
        Looked {
            cpus: self.cpus + 1,
            sum: self.sum,
        }
    }

    /// One CPU more, which was online and had this differential.
    pub fn add(self, differential: i64) -> Looked
        requires few { self.cpus < 128 }
        requires byte { IsByte differential }
        ensures cpus { result.cpus ≡ self.cpus + 1 }
        ensures sum { result.sum ≡ self.sum +ℤ differential }
    {
        Looked {
            cpus: self.cpus + 1,
            sum: self.sum + differential as i128,
        }
    }
}

/// A CPU that a snapshot found online, the next after those at which it has looked.
#[derive(Clone, Copy, Debug, PartialEq, Eq)]
pub struct OnlineCpu {
    pub looked: Looked,
    pub ghost few: { looked.cpus < 128 },
}
