ghost use Rattle.vms_answers.specs.Merging.{LanesAnswer};

/// What the lines of a phase answer is what each lane's lines answer, merged in the order of the lines.
pub fn lanes_answer_their_lines()
    ensures { LanesAnswer }
{}
