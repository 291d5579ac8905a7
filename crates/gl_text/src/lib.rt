//! Texts, and lists of texts. Contracts see a text as the list of its characters.
#![tactic(auto)]

mod shared;
mod short;
mod text;
mod texts;

pub use shared::SharedText;
pub use text::Text;
pub use texts::Texts;

#[cfg(test)]
mod tests;
