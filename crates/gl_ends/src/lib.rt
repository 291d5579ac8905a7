//! What an update frees: the calls that end what was rendered in a branch or an item. Contracts see each as the plain
//! machine's drop of just the ids that stand there.
#![tactic(auto)]

mod endings;
mod references;
mod tags;
mod things;

pub use endings::{end_branch, end_codes, end_items};
