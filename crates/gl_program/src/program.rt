// A program.
ghost use Rattle.std.specs.Prelude.{◌≡◌, []};
ghost use Rattle.gl_program.specs.View.{program_view};

use crate::{Ints, Words};
use gl_value::Texts;
use std::alloc::Global;

/// The words of opcodes, with the pools of texts, names and integers that their operands are places in.
#[derive(Drop)]
pub struct Program {
    pub words: Words,
    pub texts: Texts,
    pub names: Texts,
    pub ints: Ints,
}

impl Program {
    /// A program without words, with empty pools. It takes no memory.
    pub fn new(alloc: Global) -> Program
        ensures { program_view result ≡ record { words = []; texts = []; names = []; ints = [] } }
    {
        Program {
            words: Words::new(alloc),
            texts: Texts::new(alloc),
            names: Texts::new(alloc),
            ints: Ints::new(alloc),
        }
    }
}
