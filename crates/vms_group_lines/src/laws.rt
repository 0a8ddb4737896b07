ghost use Rattle.vms_group_lines.specs.Laws.{GroupHeadersAreSettled, GroupHeadersAreValid, JudgedGroupLinesFit};

/// The law that every header that is read has a tree, with a name of its own for each group.
pub fn group_headers_are_valid()
    ensures { GroupHeadersAreValid }
{}

/// The law that a header rests on its own lines, or on those up to the one at fault.
pub fn group_headers_are_settled()
    ensures { GroupHeadersAreSettled }
{}

/// The law that a line that counts is one of its header, and that no CPU changes a group by more than 2^48 in the lines
/// that count.
pub fn judged_group_lines_fit()
    ensures { JudgedGroupLinesFit }
{}
