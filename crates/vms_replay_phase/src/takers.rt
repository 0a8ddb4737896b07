ghost use Rattle.std.specs.Prelude.{◌++◌, ◌∷◌, [], List, OnOk};
ghost use Rattle.vms_answers.specs.Common.{NumberedAnswer};
ghost use Rattle.vms_world.specs.Common.{Header};

use vms_answers::Answer;
use vms_base::{Header, Memory};

/// What takes the answers of the lines of a phase, one after another, as the lines are made.
pub trait AnswerTaker {
    // The first takes these answers, in this order, and is the last then.
    ghost Takes: { Header → Self → List NumberedAnswer → Self → Type 0 };

    /// Takes the answer of the line of this number.
    fn take(&mut self, header: &Header, number: u32, answer: &Answer) -> Result<(), Memory>
        ensures { OnOk result ((first : Self) (before : List NumberedAnswer) →
            Takes header.now first before self.old →
            Takes header.now first (before ++ record { number = number; answer = answer.now } ∷ [])
            self.new) };
}
