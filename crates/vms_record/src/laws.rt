ghost use Rattle.vms_record.specs.Laws.{RecordsAreCertified, RecordsItsText};

use vms_io::Source;
use vms_recorded_texts::recorded_texts_have_no_fault;

/// What `record` wrote of an input that it read to its end is the recorded text of its trace. The command `certify`
/// finds no fault in it, if it is within the limit on bytes: where it judges it to its end its status is 0.
pub fn records_are_certified<S: Source>()
    ensures text { RecordsItsText S.remaining S.calls }
    ensures certified { RecordsAreCertified S.remaining S.calls }
{
    recorded_texts_have_no_fault();
}
