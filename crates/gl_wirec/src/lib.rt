//! Wires from templates and expressions.
#![tactic(auto)]

mod body_mentions;
mod compiling;
mod expr_wire;
pub mod laws;
mod mentions;
mod names;
mod part_wire;
mod stmt_wire;

pub use compiling::{compile, expression};
