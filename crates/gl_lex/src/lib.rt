//! The tokens of a template.
#![tactic(auto)]

mod begun;
mod class;
mod fault;
mod found;
pub mod laws;
mod lexer;
mod marks;
mod modes;
mod pieces;
mod scan;
mod sign;
mod words;

pub use fault::LexFault;
pub use lexer::{Front, expression_front, expression_tokens, template_front, tokens};
