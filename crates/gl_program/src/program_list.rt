// A list of programs.
ghost use Rattle.std.specs.Prelude.{◌≡◌, ◌↔◌, [], ◌∷◌, ◌++◌, IsTrue, OnOk, OnErr, length, option_map, slice_get};
ghost use Rattle.gl_program.specs.View.{program_view, seen_programs};

use crate::Program;
use std::alloc::{AllocError, Global};
use std::marker::Model;

/// A list of programs. Contracts see the programs as definitions see them.
#[derive(Drop)]
pub struct ProgramList {
    list: Vec<Program>,
}

impl Model for ProgramList {
    ghost use Rattle.std.specs.Prelude.{List};
    ghost use Rattle.std.specs.Coded.{coded_list};
    ghost use Rattle.gl_program.specs.Program as s;
    ghost use Rattle.gl_program.specs.ProgramCode.{program_code};

    ghost Value = { List s.Program };

    ghost coded = { coded_list program_code };

    ghost use Rattle.gl_program.specs.View.{seen_programs};

    ghost view = { λ a. seen_programs a.list.items };
}

impl ProgramList {
    /// The empty list. It takes no memory.
    pub fn new(alloc: Global) -> ProgramList
        ensures { result ≡ [] }
    {
        ProgramList {
            list: Vec::new(alloc),
        }
    }

    /// The list of the programs of a vector. It takes no memory.
    pub fn from_vec(list: Vec<Program>) -> ProgramList
        ensures { result ≡ seen_programs list.items }
    {
        ProgramList { list }
    }

    /// Gives the vector back. It takes no memory.
    pub fn into_vec(self) -> Vec<Program>
        ensures { seen_programs result.items ≡ self }
    {
        self.list
    }

    pub fn as_slice(&self) -> &[Program]
        ensures { seen_programs result.now ≡ self.now }
    {
        self.list.as_slice()
    }

    pub fn len(&self) -> usize
        ensures { result ≡ length self.now }
    {
        self.list.len()
    }

    pub fn is_empty(&self) -> bool
        ensures { IsTrue result ↔ (self.now ≡ []) }
    {
        self.list.is_empty()
    }

    /// The program at a place, counted from 0.
    pub fn get(&self, at: usize) -> Option<&Program>
        ensures { option_map (λ v. program_view v.now) result ≡ slice_get self.now at }
    {
        self.list.as_slice().get(at)
    }

    /// Adds a program at the end.
    pub fn push(&mut self, item: Program) -> Result<(), AllocError>
        ensures ok { OnOk result (self.new ≡ self.old ++ program_view item ∷ []) }
        ensures err { OnErr result (self.new ≡ self.old) }
    {
        self.list.push(item)?;
        Ok(())
    }
}
