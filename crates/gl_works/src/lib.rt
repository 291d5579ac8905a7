//! The work of a turn of a machine that names by numbers.
#![tactic(auto)]

pub mod laws;
