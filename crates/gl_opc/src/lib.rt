//! What programs stand for, and the linker that makes them. The types of programs are those of `gl_program`.
//!
//! A [`Program`] is the words of opcodes with the pools that their operands are places in. What its words stand for is a
//! relation between programs and trees, `specs/Spans`; what a whole program is of, `specs/Lowers`. [`link`] makes the program of a
//! wire: its opcodes and pools are the lists of `specs/Coding`, which `specs/Linked` makes step by step, as the code does.
#![tactic(auto)]

mod app;
mod context;
mod fault;
pub mod laws;
mod link_expr;
mod link_part;
mod link_stmt;
mod linker;
mod linking;
mod lookup;
mod names;
mod pool;

pub use app::App;
pub use fault::LinkFault;
pub use gl_program::{ClassProgram, Ints, Program, ProgramList, Programs, Words};
pub use linking::{link, link_expression};
