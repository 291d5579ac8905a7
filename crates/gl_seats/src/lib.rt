//! Where the nodes of an update stand: new ones are put before a node of the tree, and those of an item that moves are moved there.
#![tactic(auto)]

mod places;
mod seating;
mod shifting;
mod tops;

pub use places::{Seat, before_items, behind, behind_items};
pub use seating::seat_body;
pub use shifting::shift_body;
