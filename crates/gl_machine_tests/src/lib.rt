//! Tests of ids, of the tree of nodes, its lines, keyed lists, tags, references and scopes, and of the steps of what
//! the machine keeps, as callers meet them.
//!
//! They stand above the crates that they test, so that a check of them proves the tests alone.
#![tactic(auto)]

#[cfg(test)]
mod arena;
#[cfg(test)]
mod each;
#[cfg(test)]
mod nodes;
#[cfg(test)]
mod print;
#[cfg(test)]
mod refs;
#[cfg(test)]
mod scope;
#[cfg(test)]
mod standing;
#[cfg(test)]
mod tags;
#[cfg(test)]
mod vm;
