//! Getters that reach themselves.
//!
//! A getter mentions members of its class by `this.x`, in branches that are not taken too. One that leads to itself
//! by such mentions has no value, so a manifest with one is refused: [`cycle`] finds the first.
#![tactic(auto)]

mod finding;
pub mod laws;
mod marks;
mod mentions;

pub use finding::cycle;
