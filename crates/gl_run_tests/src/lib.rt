//! Tests of the top call: its words, refusals and lines, and of `migrate`, as callers meet them.
//!
//! They stand above the crates that they test, so that a check of them proves the tests alone.
#![tactic(auto)]

#[cfg(test)]
mod migrate;
#[cfg(test)]
mod run;
