//! That a machine which names by numbers follows a session, turn by turn.
#![tactic(auto)]

pub mod laws;
