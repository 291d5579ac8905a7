//! Reads scripts: JSON arrays of events.
//!
//! [`read`] gives the events of the bytes, or the first reason against them: they are no JSON, a place in it is not of
//! the form, or an event sets what is no field of the root. `docs/SCRIPT.md` tells authors the form.
#![tactic(auto)]

mod event;
mod fault;
mod fields;
pub mod laws;
mod reading;

pub use fault::ScriptFault;
pub use reading::read;
