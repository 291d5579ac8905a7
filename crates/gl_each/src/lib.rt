//! Keyed lists: the keys of a list's items, and the plan by which a list becomes the list of other keys.
//!
//! The definitions stand in `specs/`: `Sync` says which plan there is, `Carried` how it is carried out. The module
//! `laws` has what follows from them.
#![tactic(auto)]

mod finder;
mod finding;
mod key;
mod keying;
pub mod laws;
mod lists;
mod planning;
mod step;

pub use key::Key;
pub use keying::{apart, keys};
pub use lists::{Keys, Places, PlanSteps};
pub use planning::plan;
pub use step::{Plan, PlanStep};
