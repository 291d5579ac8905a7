//! The canonical spelling: one text for each tree of a template.
#![tactic(auto)]

mod expression;
pub mod laws;
mod part;
mod scan;
mod spelling;
mod stmt;
mod text;
mod value;

pub use spelling::{show, show_body};
