// What a reference computes.
use crate::{Ids, NamedIds};
use gl_arena::{Id, RefMark};
use gl_value::Text;

/// The id of a reference.
pub type RefId = Id<RefMark>;

/// What a reference computes from those that it reads.
#[derive(Drop)]
pub enum Form {
    /// The property of that name.
    Prop(RefId, Text),
    /// The helper with that number over positional and named arguments. `if` and `unless` read the condition and the
    /// branch that is taken, all others read every argument.
    Call(u16, Ids, NamedIds),
    /// The join of the values.
    Cat(Ids),
    /// Undefined, with every reference of the list read: several expressions make one position so.
    All(Ids),
}
