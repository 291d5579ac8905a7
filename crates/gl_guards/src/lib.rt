//! An update that passes over what is fresh does what the update does.
#![tactic(auto)]

pub mod laws;
