//! What the machine does in a turn, in the words of the meaning.
#![tactic(auto)]

pub mod laws;
