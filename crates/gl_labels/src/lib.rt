//! What numbers for owners and sources change: nothing that a rule on values or a helper tells.
#![tactic(auto)]

pub mod laws;
