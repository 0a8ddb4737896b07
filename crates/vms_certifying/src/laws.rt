ghost use Rattle.vms_certifying.specs.Laws.{CutOffAreNone, FaultsAreFinal, FaultsStay, LacksAreNone};

use crate::HistoryJudge;
use vms_header::{header_is_settled, headers_are_writable};

/// A text is not certified whose first lines have a line at fault, if faults stay whatever lines follow; nor one whose
/// history is cut off, nor one without a history. So a history is certified exactly where none of these is said of it.
pub fn faults_are_final<J: HistoryJudge>()
    ensures at_fault { FaultsStay J.rules → FaultsAreFinal J.rules }
    ensures cut_off { CutOffAreNone J.rules }
    ensures none { LacksAreNone J.rules }
{
    header_is_settled();
    headers_are_writable();
}
