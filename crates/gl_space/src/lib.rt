//! White-space control and lone tags: what of the text of a template they remove.
#![tactic(auto)]

mod line;
mod mark;
mod pass;
mod trim;

pub use pass::settle;
