//! That the page which the append machine hands out stands for the rendering.
//!
//! The code names owners and sources by numbers, and the rendering by paths. Its page is the one of the machine over words, that is the one
//! of the machine over trees, and with names that are right that stands.
#![tactic(auto)]

pub mod laws;
