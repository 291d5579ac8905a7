//! Programs as data: the words of opcodes with their pools, and the programs of a class and of an application.
//!
//! Contracts see a program as the lists that it is made of. Which opcode stands at an address, and what a place in a pool has, is
//! said in `specs/Program`; what a program is of is no question of this crate.
#![tactic(auto)]

mod class_program;
mod ints;
mod program;
mod program_list;
mod programs;
mod words;

pub use class_program::ClassProgram;
pub use ints::Ints;
pub use program::Program;
pub use program_list::ProgramList;
pub use programs::Programs;
pub use words::Words;
