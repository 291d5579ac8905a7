//! Sessions: an application is rendered once, and each event of a script is a turn. Contracts see a session as the state of the meaning's
//! session, and each turn's text and work as those of the meaning's turn.
#![tactic(auto)]

mod fault;
mod laying;
mod session;
mod turn;
mod turning;
mod writing;

pub use fault::EventFault;
pub use gl_live::Live;
pub use session::Session;
pub use turn::{Turn, Work};
