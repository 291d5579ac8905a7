//! That what references of the machine mean, and what their evaluations read, is what expressions give.
#![tactic(auto)]

pub mod laws;
