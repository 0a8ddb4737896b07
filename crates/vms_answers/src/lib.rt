//! What the lines of a phase answer: what the steps of their passes tell of it, how the answers of lanes become
//! those of their phase, in the order of the lines, and how they are printed.
#![tactic(auto)]

mod acts;
mod answers;
mod lane_answers;
mod laws;
mod phases;
mod printing;
mod test_lines;

pub use acts::{
    changes_answer_nothing, event_acts_tell_answers, page_acts_tell_answers, pcpu_acts_tell_answers,
};
pub use answers::{Answer, NumberedAnswer, event_told, page_told, pcpu_told};
pub use lane_answers::{LaneAnswers, place_of, take_answer};
pub use laws::lanes_answer_their_lines;
pub use phases::{lines_answer_in_turn, phases_end_with_all_answers, phases_open_with_no_answer};
pub use printing::write_answer;
