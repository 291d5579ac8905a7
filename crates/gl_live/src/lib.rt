//! How many nodes and instances stand in what was rendered: one walk over the updating program.
#![tactic(auto)]

mod counting;

pub use counting::{Live, count};
