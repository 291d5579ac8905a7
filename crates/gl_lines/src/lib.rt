//! The lines that a turn writes before and behind its tree: the head, the fires that nothing listened for, and the log.
#![tactic(auto)]

mod head;
mod log;

pub use head::{push_head, push_missing};
pub use log::{push_destroyed_instance, push_destroyed_modifier, push_installed, push_updated};
