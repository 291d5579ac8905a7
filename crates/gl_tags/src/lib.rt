//! Tags: what is asked to learn whether something was touched, with one revision clock.
//!
//! A dirtyable tag has the revision of its last dirtying. A combined tag stands for the dirtyable tags that it
//! leads to, and its value is the greatest of theirs. A tag is valid for a snapshot where its value isn't
//! greater than the snapshot.
#![tactic(auto)]

mod entries;
pub mod laws;
mod tag;
mod tags;

pub use tag::TagId;
pub use tags::Tags;
