ghost use Rattle.vms_stream.specs.Common.{LineTexts};

/// A command whose lines have a text each, of which some are known only with the outcome of their phase.
pub trait OrderedTexts {
    ghost State: { Type 0 };

    ghost Outcome: { Type 0 };

    ghost texts: { LineTexts State Outcome };
}
