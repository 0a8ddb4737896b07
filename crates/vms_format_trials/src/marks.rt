ghost use Rattle.vms_format_trials.specs.Marks.{cover_rows, linux_rows};
ghost use Rattle.vms_format_trials.specs.Rows.{AreRight};

/// Drift marks have these values: Linux's, also where it multiplies in 32 bits and gets another one, and those that
/// cover.
pub fn marks_are_known()
    ensures linux { AreRight linux_rows }
    ensures cover { AreRight cover_rows }
{}
