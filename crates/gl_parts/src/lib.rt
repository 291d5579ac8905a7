//! The parts of a tag: the attributes and modifiers that an element gets from them.
#![tactic(auto)]

mod attributes;
mod modifiers;
mod preparing;
mod waiting;

pub use attributes::{Attributes, attribute_over, flush};
pub use modifiers::{install_all, values_of};
pub use waiting::Waiting;
