//! The wire of a template, and its JSON.
#![tactic(auto)]

mod body;
mod expr;
mod expr_json;
mod exprs;
mod head;
mod json;
mod pairs;
mod part;
mod parts;
mod row;
mod slots;
mod stmt;
mod stmt_json;
mod symbols;
mod unnamed;
mod version;
mod wire;
mod writing;

pub use expr::{Head, WireExpr, WireExprs, WirePair, WirePairs};
pub use json::{into_text, json_in, to_json, to_text};
pub use part::{WirePart, WireParts};
pub use stmt::{WireBody, WireEachHead, WireSlot, WireSlots, WireStmt};
pub use symbols::Symbols;
pub use unnamed::is_unnamed;
pub use version::Version;
pub use wire::{ExprWire, Wire};
