//! The nodes of a page by look-ups: their children are those of the rendering.
#![tactic(auto)]

pub mod laws;
