//! Tables of names.
#![tactic(auto)]

mod constants;
mod table;

pub use constants::{HELPERS, MNEMONICS, REFERENCES, VOID, helpers, mnemonics, references, void};
pub use table::{NameTable, Row};
