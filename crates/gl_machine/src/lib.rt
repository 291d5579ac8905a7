//! The machine over words, as plain data, and its laws.
//!
//! A program of words is run step by step over the state of `gl_plain` (`specs/Step`), and records what it rendered with the addresses from
//! which bodies may be appended again (`specs/Code`). There is no code here: these are the definitions that the code of the machine meets.
#![tactic(auto)]

pub mod laws;
pub mod update_laws;
