//! The modifiers that are installed on nodes, with the values of their arguments; and which of them were installed and
//! refreshed since the last commit.
#![tactic(auto)]

mod installed;
mod listening;
mod lists;
mod mod_ids;
mod mods;
mod table;
#[cfg(test)]
mod tests;

pub use installed::{Acts, Installed};
pub use mod_ids::ModIds;
pub use mods::{Commit, Mods};
