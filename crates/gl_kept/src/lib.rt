//! What the machine keeps: what the state names is what the tree names, and a reference reads only what stands around it.
#![tactic(auto)]

pub mod laws;
