//! The helpers of templates.
#![tactic(auto)]

mod actions;
mod argument;
mod calls;
mod choose;
mod compare;
mod depth;
mod helper;
pub mod laws;
mod lists;
mod number;
mod records;
mod texts;
mod wording;

pub use calls::call;
