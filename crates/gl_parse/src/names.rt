// Names that are taken.
ghost use Rattle.std.specs.Prelude.{◌≡◌, [], ◌∷◌, ◌++◌, false, not, IfOk, OnOk};
ghost use Rattle.std.specs.Str.{chars};
ghost use Rattle.gl_base.specs.Names.{has_text};

use indexmap::IndexSet;
use std::alloc::{AllocError, Global};
use std::marker::Model;

/// Names, each once, in the order in which they came. Contracts see their list.
#[derive(Drop)]
pub struct NameSet {
    set: IndexSet<String>,
}

impl Model for NameSet {
    ghost use Rattle.std.specs.Prelude.{ℕ, List, map, string_bytes};
    ghost use Rattle.std.specs.Str.{chars};

    ghost Value = { List (List ℕ) };

    ghost view = { λ n. map (λ k. chars (string_bytes k)) n.set.keys };
}

impl NameSet {
    /// No names. It takes no memory.
    pub fn new(alloc: Global) -> NameSet
        ensures { result ≡ [] }
    {
        NameSet {
            set: IndexSet::new(alloc),
        }
    }

    /// Adds a name at the end, where it isn't there yet, and tells whether that was so.
    pub fn add(&mut self, alloc: Global, name: &str) -> Result<bool, AllocError>
        ensures told { IfOk result (λ b. b ≡ not (has_text (chars name.now) self.old)) }
        ensures added { OnOk result (has_text (chars name.now) self.old ≡ false → self.new ≡ self.old ++ chars name.now ∷ []) }
    {
        let key = String::from_str(alloc, name)?;
        Ok(self.set.insert(key)?)
    }
}
