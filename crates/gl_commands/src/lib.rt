//! The commands that play no session, what each command is to write, and how a run ends.
#![tactic(auto)]

mod ending;
mod fault;
mod line;
mod load;
mod migrate;
mod one_file;
mod put;
mod show;
mod status;
mod told;

pub use ending::{RunFault, say_line, status_of};
pub use fault::PlayFault;
pub use migrate::migrate_wire;
pub use one_file::{check_app, show_template, wire_template};
pub use put::put_text;
pub use status::Status;
pub use told::Told;
