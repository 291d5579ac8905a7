//! The command line of the renderer, over a shelf of files and two sinks.
#![tactic(auto)]

mod command;
mod last;
mod playing;
mod sample;
mod told;
mod top;

pub use gl_commands::{PlayFault, RunFault, Status};
pub use last::Last;
pub use top::run;
