//! What an update destroyed: what stands in a page that may be destroyed, and the lines of what stands there no more.
#![tactic(auto)]

mod destroyed;
mod endings;
mod listing;
mod lookup;
mod numbers;

pub use destroyed::push_destroyed;
pub use endings::{Ending, Standing};
pub use listing::standing;
pub use lookup::name_of;
