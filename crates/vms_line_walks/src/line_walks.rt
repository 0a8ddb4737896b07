use crate::shown_peaks::ShownPeaks;
use vms_base::Header;
use vms_core::Step;
use vms_own_acts::ExactRules;
use vms_page_registers::PageRegisters;
use vms_phase_checks::LaneWalk;
use vms_plans::DueStep;
use vms_registers::Registers;
use vms_text::{Act, Lane};
use vms_walks::{Walk, fitting_lines_are_page_acts, walks_go_along};

/// A walk along the acts of a lane under the kernel's rules of thresholds.
#[derive(Clone, Copy, Debug, PartialEq, Eq)]
pub struct LineWalk {
    walk: Walk,
}

impl LaneWalk for LineWalk {
    ghost use Rattle.vms_world.specs.Common.{normal_threshold_of, pressure_threshold_of};
    ghost use Rattle.vms_walks.specs.Walks.{IsWalkWithin, StandsAt};
    ghost use Rattle.vms_own_acts.specs.Common.{IsExactly};
    ghost use Rattle.vms_line_walks.specs.ExactRules.{acts-by_own, exact-gives, exact-is_formula, walks-stand};

    ghost pressure = { IsExactly pressure_threshold_of };

    ghost normal = { IsExactly normal_threshold_of };

    ghost Stands = { λ header base lane p acts h walk.
        StandsAt header base (IsExactly pressure_threshold_of) (IsExactly normal_threshold_of) lane p acts walk.walk h
        × IsWalkWithin header.layout lane acts walk.walk };

    fn begin() -> LineWalk {
        LineWalk {
            walk: Walk::begin::<ExactRules>(),
        }
    }

    fn go(
        &mut self,
        header: &Header,
        registers: &Registers<PageRegisters>,
        lane: Lane,
        acts: &[Act],
        step: &Step,
    ) -> bool {
        fitting_lines_are_page_acts();
        walks_go_along::<ExactRules>();
        let peaks = ShownPeaks { registers };
        self.walk
            .go::<ExactRules, ShownPeaks<'_>>(header, &peaks, lane, acts, step)
    }

    fn is_done(
        &self,
        header: &Header,
        registers: &Registers<PageRegisters>,
        lane: Lane,
        acts: &[Act],
    ) -> bool {
        self.due(header, registers, lane, acts).is_none()
    }

    fn due(
        &self,
        header: &Header,
        registers: &Registers<PageRegisters>,
        lane: Lane,
        acts: &[Act],
    ) -> Option<DueStep> {
        fitting_lines_are_page_acts();
        let peaks = ShownPeaks { registers };
        self.walk
            .due::<ExactRules, ShownPeaks<'_>>(header, &peaks, lane, acts)
    }

    ghost gives = { exact-gives };

    ghost exact = { exact-is_formula };

    ghost others = { λ header base lane p acts e h walk other stands.
        walks-stand header base lane p acts walk.walk e h other stands };

    ghost by_own = { acts-by_own };
}
