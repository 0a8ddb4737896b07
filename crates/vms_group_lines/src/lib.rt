//! The grammar of traces of groups: a header a line at a time, the lines of the body, and which of these count.
#![tactic(auto)]

mod causes;
mod header_lines;
mod headers;
mod judges;
mod laws;
mod lines;
mod names;
mod parsing;
mod reader;
mod stages;

pub use causes::{GroupCause, GroupReadError, cause_name};
pub use headers::GroupHeader;
pub use judges::GroupJudge;
pub use laws::{group_headers_are_settled, group_headers_are_valid, judged_group_lines_fit};
pub use lines::GroupLine;
pub use reader::{GroupHeadReader, GroupHeadStep};
pub use stages::{GroupStage, HeadStep};
