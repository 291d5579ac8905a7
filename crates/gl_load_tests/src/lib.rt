//! Tests of shelves and sinks and of loading, as callers meet them.
//!
//! They stand above the crates that they test, so that a check of them proves the tests alone.
#![tactic(auto)]

#[cfg(test)]
mod load;
#[cfg(test)]
mod outside;
