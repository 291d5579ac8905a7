//! What an event of a script sets on a page. Contracts see it as the meaning's own sets, with the numbers for which there is no such node or
//! no such listener, where the page that is read stands for a rendering. The page is only read.
#![tactic(auto)]

mod applied;

pub use applied::{Applied, apply};
