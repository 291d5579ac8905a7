//! Tests of values, helpers and tables of names, as callers meet them.
//!
//! They stand above the crates that they test, so that a check of them proves the tests alone.
#![tactic(auto)]

#[cfg(test)]
mod helpers;
#[cfg(test)]
mod names;
#[cfg(test)]
mod value;
