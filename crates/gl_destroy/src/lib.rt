//! What an update can destroy: a forest of modifiers, instances and groups. A destroyed subtree is logged, children
//! first.
#![tactic(auto)]

mod entries;
mod forest;
mod log;
mod siblings;
#[cfg(test)]
mod tests;
mod walk;
mod what;

pub use forest::Destroyables;
pub use log::Log;
pub use what::What;
