//! That the text of a turn can be read off a machine by numbers that follows a session.
#![tactic(auto)]

pub mod laws;
