//! A line of the body of a trace: what it says, the first cause why it says nothing, and its one spelling.
#![tactic(auto)]

mod causes;
mod fields;
mod form_fields;
mod forms;
mod parsing;
mod reading_back;
mod spelling;

pub use causes::LineCause;
pub use parsing::{lines_are_known, parse_line, parse_spelled};
pub use reading_back::{lines_have_one_spelling, lines_read_back};
pub use spelling::write_line;
pub use vms_text::{Act, Boundary, Item, Lane, Line, ReportKind};
