//! The wire of a template, read from its JSON.
#![tactic(auto)]

mod expr;
mod fault;
pub mod laws;
mod pieces;
mod rows;
mod same;
mod statement;
mod tag;
mod tree;
mod wire;

pub use fault::WireFault;
pub use wire::from_json;
