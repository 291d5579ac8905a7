//! The registers of the append machine and its opcodes. Contracts see them as the machine over words: what an opcode
//! does to them and to what is kept is that machine's step.
#![tactic(auto)]

mod appending;
mod blocks;
mod bodies;
mod branch_ends;
mod branches;
mod calls;
mod components;
mod elements;
mod exprs;
mod items;
mod lets;
mod lists;
mod machine;
mod members;
mod page;
mod programs;
mod run;
mod shown;
mod stack;
mod step;
mod tags;
mod words;

pub use appending::Opcodes;
pub use page::append;
