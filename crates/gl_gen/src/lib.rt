//! The sample application of a size: a list of rows, with a script that clicks rows and brings them into other orders.
//! It is what a run is measured on.
#![tactic(auto)]

mod application;
mod making;
mod rows;
mod script;
#[cfg(test)]
mod tests;
mod whole;

pub use making::sample;
pub use whole::Sample;
