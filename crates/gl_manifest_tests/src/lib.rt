//! Tests of manifests, scripts and getter cycles, as callers meet them.
//!
//! They stand above the crates that they test, so that a check of them proves the tests alone.
#![tactic(auto)]

#[cfg(test)]
mod cycles;
#[cfg(test)]
mod manifest;
#[cfg(test)]
mod meaning;
#[cfg(test)]
mod script;
#[cfg(test)]
mod shape;
