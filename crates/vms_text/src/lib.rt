//! The text of a trace as lines, words, numbers and names, what a line may say, and the words of places and counters.
#![tactic(auto)]

mod acts;
mod cutting;
mod kept_lanes;
mod line_words;
mod marks;
mod names;
mod numbers;
mod place_names;
mod place_words;
mod scanning;
mod writing;

pub use acts::{Act, Boundary, Item, Lane, Line, ReportKind};
pub use cutting::{lines_append, lines_begin, split_line};
pub use kept_lanes::KeptLane;
pub use line_words::{cut_at_spaces, cut_line, cut_words, is_clean, is_ignored};
pub use names::is_name;
pub use numbers::{is_number, numbers_read_back, read_signed, read_unsigned, read_within};
pub use place_names::{
    class_position, is_in_bytes, is_node, kind_named, name_index, node_at, node_named, place_named,
    zone_named,
};
pub use place_words::{name_of_item, words_of_counter, words_of_place};
pub use scanning::{next_word, word_length};
pub use writing::{Word, write_words};
