//! Values of templates. Texts are those of `gl_text`.
#![tactic(auto)]

mod building;
mod comparing;
mod copying;
mod json;
pub mod laws;
mod list;
mod named;
mod plain_form;
mod property;
mod quoting;
mod record;
mod scalar;
mod value;
mod writing;

pub use building::{ListBuilder, RecordBuilder};
pub use gl_text::{SharedText, Text, Texts};
pub use json::{JsonFault, json_fault};
pub use named::NamedValues;
pub use property::{Found, key_of};
pub use quoting::{push_quoted, quote};
pub use value::{Act, DEEPEST, GREATEST, List, Pair, Record, Value};
