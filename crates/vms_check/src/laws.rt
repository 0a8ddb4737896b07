ghost use Rattle.vms_check.specs.Laws.{ChecksAgain, WritesItsText};

/// The law of what a check writes line by line: for a text within the limits it is what the header and the body
/// define.
pub fn writes_its_text()
    ensures { WritesItsText }
{}

/// The law that a check accepts what it wrote: it reads the same header and the same lines again, and refuses none.
pub fn checks_again()
    ensures { ChecksAgain }
{}
