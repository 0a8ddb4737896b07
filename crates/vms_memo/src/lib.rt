//! What a value was when a memo of it was made, as contracts see it after the value has changed.
#![tactic(auto)]

mod memos;

pub use memos::Memo;
