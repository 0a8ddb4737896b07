//! Texts that wait for the outcome of their phase are printed in the order of their lines, and outside a phase none is
//! held back.
#![tactic(auto)]

mod orders;
mod texts;
mod waits;

pub use orders::texts_print_in_order;
pub use texts::OrderedTexts;
pub use waits::{
    bodies_wait_inside_phases, groups_wait_inside_phases, texts_wait_inside_phases,
    traces_wait_inside_phases,
};
