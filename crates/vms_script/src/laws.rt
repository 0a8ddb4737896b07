ghost use Rattle.vms_script.specs.FittingScripts.{FittingScriptsStayWithin};
ghost use Rattle.vms_script.specs.Segments.{BoundariesCut, LinesMakeOnePhase, SegmentsHaveAllLines, SegmentsMayStand};

/// The law that a script that fits leaves every volume within its most.
pub fn fitting_scripts_stay_within()
    ensures { FittingScriptsStayWithin }
{}

/// The law that each phase of a body fits where it begins, and each boundary line counts where it stands.
pub fn segments_may_stand()
    ensures { SegmentsMayStand }
{}

/// The law that the lines of the segments are the lines that count.
pub fn segments_have_all_lines()
    ensures { SegmentsHaveAllLines }
{}

/// The law that the segments before a boundary line and those after it are each told by their own lines.
pub fn boundaries_cut()
    ensures { BoundariesCut }
{}

/// The law that the lines between boundary lines make one phase, of all lane lines that count, or none.
pub fn lines_make_one_phase()
    ensures { LinesMakeOnePhase }
{}
