ghost use Rattle.vms_command.specs.Commands.{following};
ghost use Rattle.vms_command.specs.Texts.{WritesTexts};
ghost use Rattle.vms_stream.specs.Common.{WritesInOrder};

use crate::Body;

/// The laws of what a command writes line by line. With the outcomes of its phases it is the texts of the lines in
/// their order. Where it asks for nothing it is, for a text within the limits, what the header and the body define.
pub fn writes_texts<B: Body>()
    ensures in_order { WritesInOrder (following B.command) }
    ensures asking_nothing { WritesTexts B.command }
{}
