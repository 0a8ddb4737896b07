ghost use Rattle.std.specs.Prelude.{◌≡◌, true, List, [], ◌∷◌, ◌++◌, Option};
ghost use Rattle.vms_world.specs.Common.{Header, Item, Lane, is_among, lanes_of, TableHistories};
ghost use Rattle.vms_world.specs.declared.worlds.World.{World};
ghost use Rattle.vms_file_order.specs.Common.{GoesOnInTables, TableStates, closings_of, openings_of};
ghost use Rattle.vms_file_order.specs.Common.{histories_with_line};
ghost use Rattle.vms_answers.specs.declared.answers.Answer.{Answer};
ghost use Rattle.vms_answers.specs.Answers.{Tell};
ghost use Rattle.vms_answers.specs.OpenAnswers.{Answered, steps_of_line};
ghost use Rattle.vms_answers.specs.PhaseAnswers.{NumberedAnswer, answers_of, with_answer};

use vms_calls::ThresholdRules;

/// When a phase opens no line has answered.
pub fn phases_open_with_no_answer()
    ensures { (header : Header) (w : World) (lanes : List Lane) →
        Answered header w lanes [] (openings_of lanes) [] }
{}

/// A line that goes on in the three tables adds its answer, if its steps tell one, after those of the lines before it.
pub fn lines_answer_in_turn<R: ThresholdRules>()
    ensures { (header : Header) (w : World) (lanes : List Lane) (items : List Item)
        (hs : TableHistories)
        (answers : List NumberedAnswer) → Answered header w lanes items hs answers →
        (item : Item) (next : TableStates) (answer : Option Answer) → is_among item.lane lanes ≡ true →
        (line : GoesOnInTables header R.pressure R.normal w lanes item hs next) →
        Tell header w item.lane item.act (steps_of_line header R.pressure R.normal w lanes item hs next line) answer →
        Answered header w lanes (items ++ item ∷ [])
        (histories_with_line header R.pressure R.normal w lanes item hs next line)
        (answers ++ with_answer item.number answer []) }
{}

/// Once a phase closes after its lines, their answers are those that its histories tell.
pub fn phases_end_with_all_answers()
    ensures { (header : Header) (w : World) (items : List Item) (hs : TableHistories)
        (answers : List NumberedAnswer) →
        Answered header w (lanes_of header.layout items) items hs answers →
        answers_of header w items (closings_of (lanes_of header.layout items) hs) ≡ answers }
{}
