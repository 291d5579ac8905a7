//! When a page stands in a state of a session: what its machine keeps and its updating program follow the state, and its nodes stand in the
//! tree as they were rendered.
#![tactic(auto)]

pub mod laws;
