//! Whether a region of the updating program is entered: it has many positions, or one of its few is stale. A page is entered
//! where one of its positions is stale, however many they are.
#![tactic(auto)]

mod asking;
mod regions;
mod stale;

pub use regions::{enters_body, enters_items, enters_page};
pub use stale::is_stale;
