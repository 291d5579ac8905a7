//! The opcodes of compiled templates: as words of 64 bits, and as a listing.
#![tactic(auto)]

mod cases;
pub mod laws;
mod listing;
mod op;
mod word;

pub use listing::list;
pub use op::Op;
pub use word::{decode, encode};
