//! The actions that an event runs: what they set. Contracts see it as the meaning's own sets, where the machine that is read stands for
//! a rendering. The page is only read: what is set is laid on it by others, when all the events of a batch have run.
#![tactic(auto)]

mod arguments;
mod cells;
mod evaluate;
mod event;
mod fields;
mod frame;
mod givens;
mod hearing;
mod lookup;
mod plainly;
mod reading;
mod root;
mod run;
mod seeking;
mod sets;
mod turn;

pub use cells::cell_for;
pub use event::{Fired, fire};
pub use root::set_root;
pub use sets::{Set, Sets};
