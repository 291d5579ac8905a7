//! Names of owners and sources by numbers and by paths: the machine over plain data does the same with both.
#![tactic(auto)]

pub mod laws;
