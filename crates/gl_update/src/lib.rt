//! The update of what was rendered: only what something touched reaches is changed.
#![tactic(auto)]

mod along;
mod asks;
mod branches;
mod codes;
mod counting;
mod ending;
mod ending_items;
mod items;
mod lists;
mod modifiers;
mod nodes;
mod old_items;
mod pages;
mod positions;
mod reading;
mod standing;
mod staying;
mod syncing;
mod taken;
mod trail;

pub use counting::Moved;
pub use pages::update;
