//! Tests of sessions and their work, as callers of the top call meet them.
//!
//! They stand above the crates that they test, so that a check of them proves the tests alone.
#![tactic(auto)]

#[cfg(test)]
mod sessions;
#[cfg(test)]
mod works;
