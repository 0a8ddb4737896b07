//! The kernel's formulas of thresholds, for rules that answer what they give and nothing else.

ghost use Rattle.std.specs.Prelude.{◌≤◌};
ghost use Rattle.vms_world.specs.Common.{IsValidSize, normal_threshold_of, pressure_threshold_of};
ghost use Rattle.vms_own_acts.specs.Common.{IsExactly};

use vms_base::ZoneSize;
use vms_calc::{Rule, normal_threshold, pressure_threshold};

/// `calculate_normal_threshold` of mm/vmstat.c.
#[derive(Debug, Drop)]
pub(crate) struct NormalFormula;

impl Rule for NormalFormula {
    ghost accepts = { λ rule size online. IsValidSize size × (1 ≤ online) × (online ≤ 128) };

    ghost answers = { λ rule. IsExactly normal_threshold_of };

    #[inline]
    fn answer(&self, size: &ZoneSize, online: u32) -> u32 {
        normal_threshold(size, online)
    }
}

/// `calculate_pressure_threshold` of mm/vmstat.c.
#[derive(Debug, Drop)]
pub(crate) struct PressureFormula;

impl Rule for PressureFormula {
    ghost accepts = { λ rule size online. IsValidSize size × (1 ≤ online) × (online ≤ 128) };

    ghost answers = { λ rule. IsExactly pressure_threshold_of };

    #[inline]
    fn answer(&self, size: &ZoneSize, online: u32) -> u32 {
        pressure_threshold(size, online)
    }
}
