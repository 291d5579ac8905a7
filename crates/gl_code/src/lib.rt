//! The updating program in code: what was rendered, nested as it was rendered, with what its places see; what is made and
//! read for it, and the words of programs. Contracts see it as that of the machine over words.
#![tactic(auto)]

mod appending;
mod branches;
mod cells;
mod code;
mod comments;
mod entries;
mod fault;
mod instances;
mod items;
mod kept;
mod page;
mod paths;
mod sight;
mod standing;
mod values;
mod words;
mod written;

pub use appending::AppendBlock;
pub use branches::{after, chosen, side, takes};
pub use cells::Cells;
pub use code::{AttrSpot, Choice, Code, Codes, ItemCode, ItemSpot, Listing, ModSpot, Spot};
pub use comments::comment_for;
pub use entries::{Entry, counted, items_of, keyed_items_of};
pub use fault::VmFault;
pub use instances::{deeper, instantiate, lay_cells, own_level, same_ids};
pub use items::{item_params, item_sight, params_from};
pub use kept::{bind, position};
pub use page::Page;
pub use paths::{below, onward, path_copy};
pub use sight::{Level, Link, Owner, Sight, Slot, copied};
pub use standing::hang;
pub use values::value_of;
pub use words::{
    action_at, class_at, class_number, helper_at, integer_at, modifier_at, name_at,
    operands_behind, text_at, word_at,
};
pub use written::Written;
