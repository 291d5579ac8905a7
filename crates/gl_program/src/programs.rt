// The programs of an application.
ghost use Rattle.std.specs.Prelude.{◌≡◌, ◌↔◌, [], ◌∷◌, ◌++◌, IsTrue, OnOk, OnErr, length, option_map, slice_get};
ghost use Rattle.gl_program.specs.View.{class_program_view, seen_class_programs};

use crate::ClassProgram;
use std::alloc::{AllocError, Global};
use std::marker::Model;

/// The programs of an application, those of each class in the order of the manifest. Contracts see them as definitions see
/// them.
#[derive(Drop)]
pub struct Programs {
    list: Vec<ClassProgram>,
}

impl Model for Programs {
    ghost use Rattle.std.specs.Prelude.{List};
    ghost use Rattle.std.specs.Coded.{coded_list};
    ghost use Rattle.gl_program.specs.ClassProgram as s;
    ghost use Rattle.gl_program.specs.ProgramCode.{class_program_code};

    ghost Value = { List s.ClassProgram };

    ghost coded = { coded_list class_program_code };

    ghost use Rattle.gl_program.specs.View.{seen_class_programs};

    ghost view = { λ a. seen_class_programs a.list.items };
}

impl Programs {
    /// The empty list. It takes no memory.
    pub fn new(alloc: Global) -> Programs
        ensures { result ≡ [] }
    {
        Programs {
            list: Vec::new(alloc),
        }
    }

    /// The list of the programs in a vector. It takes no memory.
    pub fn from_vec(list: Vec<ClassProgram>) -> Programs
        ensures { result ≡ seen_class_programs list.items }
    {
        Programs { list }
    }

    /// Gives the vector back. It takes no memory.
    pub fn into_vec(self) -> Vec<ClassProgram>
        ensures { seen_class_programs result.items ≡ self }
    {
        self.list
    }

    pub fn as_slice(&self) -> &[ClassProgram]
        ensures { seen_class_programs result.now ≡ self.now }
    {
        self.list.as_slice()
    }

    pub fn len(&self) -> usize
        ensures { result ≡ length self.now }
    {
        self.list.len()
    }

    pub fn is_empty(&self) -> bool
        ensures { IsTrue result ↔ (self.now ≡ []) }
    {
        self.list.is_empty()
    }

    /// The programs of the class at a place, counted from 0.
    pub fn get(&self, at: usize) -> Option<&ClassProgram>
        ensures { option_map (λ v. class_program_view v.now) result ≡ slice_get self.now at }
    {
        self.list.as_slice().get(at)
    }

    /// Adds the programs of a class at the end.
    pub fn push(&mut self, item: ClassProgram) -> Result<(), AllocError>
        ensures ok { OnOk result (self.new ≡ self.old ++ class_program_view item ∷ []) }
        ensures err { OnErr result (self.new ≡ self.old) }
    {
        self.list.push(item)?;
        Ok(())
    }
}
