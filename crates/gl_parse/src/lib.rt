//! The tree that a template or an expression spells.
#![tactic(auto)]

mod block;
mod body;
mod due;
mod item;
pub mod laws;
mod names;
mod place;
mod slot;
mod spelled;
mod stack;
mod starts;
mod starts_content;
mod starts_slots;
mod starts_tag;
mod statement;
mod tag;
mod value;

pub use gl_exprs::ParseFault;
pub use spelled::{expression, template};
