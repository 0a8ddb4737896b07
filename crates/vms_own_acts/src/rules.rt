ghost use Rattle.std.specs.Prelude.{◌≤◌};
ghost use Rattle.vms_world.specs.Common.{IsValidSize, normal_threshold_of, pressure_threshold_of};
ghost use Rattle.vms_own_acts.specs.Rules.{IsFunction, IsExactly, formula-is_function};

use vms_base::ZoneSize;
use vms_calc::{normal_threshold, pressure_threshold};
use vms_calls::ThresholdRules;

/// Rules of thresholds that are functions: each answers one threshold, in pages, for a zone's size and a number of
/// online CPUs.
pub trait RuleFunctions: ThresholdRules {
    /// What the rule of pressure answers.
    fn pressure_answer(size: &ZoneSize, online: u32) -> u32
        requires size { IsValidSize size.now }
        requires most_online { online ≤ 128 }
        ensures { Self.pressure size.now online result };

    /// What the normal rule answers.
    fn normal_answer(size: &ZoneSize, online: u32) -> u32
        requires size { IsValidSize size.now }
        requires most_online { online ≤ 128 }
        ensures { Self.normal size.now online result };

    ghost pressure_is: { IsFunction Self.pressure };

    ghost normal_is: { IsFunction Self.normal };
}

/// The kernel's formulas, `calculate_pressure_threshold` and `calculate_normal_threshold` of mm/vmstat.c, for every
/// number of CPUs. No call of a legal history asks for the thresholds of no CPU.
#[derive(Debug, Drop)]
pub struct ExactRules;

impl ThresholdRules for ExactRules {
    ghost pressure = { IsExactly pressure_threshold_of };

    ghost normal = { IsExactly normal_threshold_of };
}

impl RuleFunctions for ExactRules {
    fn pressure_answer(size: &ZoneSize, online: u32) -> u32 {
        if online == 0 {
            return 1;
        }
        pressure_threshold(size, online)
    }

    fn normal_answer(size: &ZoneSize, online: u32) -> u32 {
        if online == 0 {
            return 0;
        }
        normal_threshold(size, online)
    }

    ghost pressure_is = { formula-is_function pressure_threshold_of };

    ghost normal_is = { formula-is_function normal_threshold_of };
}
