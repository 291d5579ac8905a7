//! Reads the manifest of an application.
//!
//! The form of the JSON is checked first, as a whole, and then its expressions are read; so each fault is told that the
//! definitions give, at the first place where it is.
#![tactic(auto)]

mod classes;
mod fault;
pub mod laws;
mod members;
mod reading;
mod shape;
mod spelled;
mod step_rules;
mod steps;
mod texts;

pub use fault::ManifestFault;
pub use reading::read;
