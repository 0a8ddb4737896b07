//! The header of a trace: what its lines say, the first line at fault and its cause, and its one spelling.
#![tactic(auto)]

mod causes;
mod drafts;
mod headers;
mod layouts;
mod parsing;
mod reader;
mod reading_back;
mod sections;
mod spelling;
mod stages;
mod values;

pub use causes::{HeaderCause, HeaderError, ReadError};
pub use parsing::{header_is_settled, headers_are_writable, parse_header};
pub use reader::{HeaderReader, HeaderStep};
pub use reading_back::headers_read_back;
pub use spelling::write_header;
