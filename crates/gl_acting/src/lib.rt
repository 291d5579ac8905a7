//! What a machine that names by numbers has of the instances and the modifiers of the session that it follows.
#![tactic(auto)]

pub mod laws;
