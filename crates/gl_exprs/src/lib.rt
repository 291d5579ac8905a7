//! The parts of a template that stand in one tag or mustache: a cursor over tokens, what the texts of single tokens
//! stand for, and expressions.
#![tactic(auto)]

mod cursor;
mod decode;
pub mod expr;
mod fault;
pub mod laws;
pub mod name;
mod number;
pub mod operand;
mod path;
mod scan;
pub mod words;

pub use cursor::Cursor;
pub use decode::decoded;
pub use fault::{Misread, ParseFault};
pub use scan::Scan;
