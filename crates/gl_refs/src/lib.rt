//! References: values that are computed from cells and items, and kept while nothing that was read for them is touched.
#![tactic(auto)]

mod blank;
mod evaluation;
mod form;
mod ids;
pub mod laws;
mod looking;
mod making;
mod refs;
mod row;
mod settling;
mod table;
mod tally;
mod values;
mod watch;
mod writing;

pub use form::{Form, RefId};
pub use ids::{Ids, NamedIds};
pub use refs::Refs;
