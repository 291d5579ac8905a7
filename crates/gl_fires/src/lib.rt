//! That a page which stands in a state of a session has what the actions of an event read, and that what they set is the page's own.
#![tactic(auto)]

pub mod laws;
