ghost use Rattle.vms_trace_parts.specs.CopiedTexts.{CopiesTexts};

use vms_io::Source;
use vms_script::{boundaries_cut, lines_make_one_phase, segments_may_stand};

/// The law of what a copy says of a text, by the text alone: what was written, which parts were kept, and why it ended.
pub fn copies_texts<S: Source>()
    ensures { CopiesTexts S.remaining S.calls }
{
    boundaries_cut();
    lines_make_one_phase();
    segments_may_stand();
}
