//! What the machine keeps, and its primitive steps. Contracts see it as the state of the plain machine.
#![tactic(auto)]

mod ends;
mod law;
mod node_ends;
mod nodes;
mod placing;
mod positions;
mod references;
mod starting;
mod vm;

pub use vm::{Instance, Vm};
