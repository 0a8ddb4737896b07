use crate::acts::Lane;
use std::marker::Model;
use vms_base::CpuId;

/// The lane of a kept line. It takes 4 bytes, and a `Lane` takes 8: a phase keeps many lines.
#[derive(Clone, Copy, Debug, PartialEq, Eq)]
pub struct KeptLane {
    /// The number of the lane's CPU: none for the control's.
    cpu: Option<u16>,
}

impl Model for KeptLane {
    ghost use Rattle.vms_text.specs.declared.acts.Lane.{Lane};
    ghost use Rattle.vms_text.specs.KeptLanes.{lane_numbered, lane_cpu_number};

    ghost Value = { Lane };

    ghost view = { λ kept. lane_numbered kept.cpu };

    ghost inverse = { λ lane. record { cpu = lane_cpu_number lane } };
}

impl KeptLane {
    ghost use Rattle.std.specs.Prelude.{◌≡◌};
    ghost use Rattle.vms_text.specs.KeptLanes.{IsKeepableLane};

    /// Keeps a lane, whose CPU has a number of at most 16 bits.
    #[inline(always)]
    pub fn of(lane: Lane) -> KeptLane
        requires { IsKeepableLane lane }
        ensures { result ≡ lane }
    {
        KeptLane {
            cpu: match lane {
                Lane::Cpu(cpu) => Some(cpu.number as u16),
                Lane::Control => None,
            },
        }
    }

    /// The lane that is kept.
    #[inline(always)]
    pub fn lane(self) -> Lane
        ensures { result ≡ self }
    {
        match self.cpu {
            Some(number) => Lane::Cpu(CpuId {
                number: number as u32,
            }),
            None => Lane::Control,
        }
    }
}
