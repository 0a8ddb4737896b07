ghost use Rattle.std.specs.Prelude.{ℕ};
ghost use Rattle.vms_history.specs.Common.{ZoneSize};

/// The rules by which calls give zones thresholds: that of pressure and the normal one. Each tells which thresholds it
/// may give to a zone of a size where so many CPUs are online.
pub trait ThresholdRules {
    ghost pressure: { ZoneSize → ℕ → ℕ → Type 0 };

    ghost normal: { ZoneSize → ℕ → ℕ → Type 0 };
}
