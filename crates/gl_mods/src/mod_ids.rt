// A list of modifiers.
ghost use Rattle.std.specs.Prelude.{◌≡◌, [], length};

use gl_arena::ModId;
use std::alloc::Global;
use std::marker::Model;

/// The ids of modifiers, in order.
#[derive(Drop)]
pub struct ModIds {
    list: Vec<ModId>,
}

impl Model for ModIds {
    ghost use Rattle.std.specs.Prelude.{List};
    ghost use Rattle.gl_arena.specs.Id.{Id};
    ghost use Rattle.gl_mods.specs.Mods.{ids_code};

    ghost Value = { List Id };

    ghost coded = { ids_code };

    ghost view = { λ m. m.list.items };
}

impl ModIds {
    /// The empty list. It takes no memory.
    pub fn new(alloc: Global) -> ModIds
        ensures { result ≡ [] }
    {
        ModIds {
            list: Vec::new(alloc),
        }
    }

    /// The list of the ids of a vector. It takes no memory.
    pub fn from_vec(list: Vec<ModId>) -> ModIds
        ensures { result ≡ list.items }
    {
        ModIds { list }
    }

    /// Gives the vector back. It takes no memory.
    pub fn into_vec(self) -> Vec<ModId>
        ensures { result.items ≡ self }
    {
        self.list
    }

    pub fn as_slice(&self) -> &[ModId]
        ensures { result.now ≡ self.now }
    {
        self.list.as_slice()
    }

    pub fn len(&self) -> usize
        ensures { result ≡ length self.now }
    {
        self.list.len()
    }
}
