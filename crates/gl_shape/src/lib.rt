//! Reading JSON of a given form, where the first place that is not of the form is told by its JSON pointer.
//!
//! Members are read in the byte order of their keys and items by their places. A pointer is written only when a fault is
//! told, so nothing is allocated for the places that are right.
#![tactic(auto)]

mod fault;
mod json;
mod names;
mod pointer;
mod walk;

pub use fault::PlaceFault;
pub use json::{
    check_value, has_inner, has_key, item_count, items_at, json_of, member_count, members_at,
    text_at, value_of,
};
pub use names::{is_class_name, is_free_name, is_name};
pub use pointer::{at_item, at_key};
pub use walk::{
    ItemReader, ItemRule, MemberReader, MemberRule, check_array, check_items, check_members,
    check_object, read_items, read_items_at, read_members, read_members_at, take_items,
};
