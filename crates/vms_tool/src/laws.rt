ghost use Rattle.vms_tool.specs.OneOutput.{CertifyHasOneOutputOfText, CheckHasOneOutput, CheckHasOneOutputOfText};
ghost use Rattle.vms_tool.specs.OneOutput.{ReplayHasOneOutput, ReplayHasOneOutputOfText};

use vms_file_order_laws::file_order_is_one;
use vms_header::headers_are_writable;
use vms_history_checks::lines_have_one_verdict;
use vms_io::Source;
use vms_line_walks::LineWalk;
use vms_replay::KernelRules;

/// The law that a text has one output. Where `replay`, or `check`, takes the same bytes twice and comes to the end of a
/// body both times, it writes the same with the same status. So does each of them, and `certify`, where it has the same
/// text before it twice and comes to its end, to a line that stops it or past 64 MiB, however far it reads. This doesn't
/// hold of `run`, whose answers depend on which CPU comes first.
pub fn texts_have_one_output<S: Source, T: Source>()
    ensures replay { ReplayHasOneOutput S.remaining S.calls T.remaining T.calls }
    ensures check { CheckHasOneOutput S.remaining S.calls T.remaining T.calls }
    ensures replay_text { ReplayHasOneOutputOfText S.remaining S.calls T.remaining T.calls }
    ensures check_text { CheckHasOneOutputOfText S.remaining S.calls T.remaining T.calls }
    ensures certify_text { CertifyHasOneOutputOfText S.remaining S.calls T.remaining T.calls }
{
    file_order_is_one::<KernelRules>();
    headers_are_writable();
    lines_have_one_verdict::<LineWalk>();
}
