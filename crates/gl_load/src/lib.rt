//! Loads an application and its script from a shelf of files, or gives the first refusal.
#![tactic(auto)]

mod application;
mod classes;
mod entries;
mod events;
mod exprs;
mod fault;
mod file;
pub mod laws;
mod programs;
mod templates;
mod whole;

pub use application::{Application, load_app};
pub use fault::{LoadCause, LoadFault, fault_in};
pub use file::{fetch_small, template_in};
pub use templates::Templates;
pub use whole::{Loaded, load};
