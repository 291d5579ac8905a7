// Names, each once, in the order in which they came.
ghost use Rattle.std.specs.Prelude.{◌≡◌, [], IfOk, OnOk, length, take};
ghost use Rattle.gl_base.specs.Names.{has_text};
ghost use Rattle.gl_wire.specs.Symbols.{with_name, with_names, place_of};

use gl_value::{Text, Texts};
use indexmap::IndexSet;
use std::alloc::{AllocError, Global};
use std::marker::Model;

/// Names, each once, in the order in which they came. Contracts see their list.
#[derive(Drop)]
pub struct Names {
    set: IndexSet<String>,
}

impl Model for Names {
    ghost use Rattle.std.specs.Prelude.{ℕ, List, map, string_bytes};
    ghost use Rattle.std.specs.Str.{chars};

    ghost Value = { List (List ℕ) };

    ghost view = { λ n. map (λ k. chars (string_bytes k)) n.set.keys };
}

impl Names {
    /// No names. It takes no memory.
    pub fn new(alloc: Global) -> Names
        ensures { result ≡ [] }
    {
        Names {
            set: IndexSet::new(alloc),
        }
    }

    pub fn len(&self) -> usize
        ensures { result ≡ length self.now }
    {
        self.set.len()
    }

    /// Whether the name is there.
    pub fn has(&self, name: &Text) -> bool
        ensures { result ≡ has_text name.now self.now }
    {
        self.set.contains(name.as_str())
    }

    /// The place of a name. A place that doesn't fit into 32 bits is answered with want of memory.
    pub fn place(&self, name: &Text) -> Result<u32, AllocError>
        ensures { IfOk result (λ i. i ≡ place_of self.now name.now) }
    {
        let place = self
            .set
            .get_index_of(name.as_str())
            .unwrap_or(self.set.len());
        match u32::try_from(place) {
            Ok(place) => Ok(place),
            Err(_) => Err(AllocError),
        }
    }

    /// Adds a name at the end, where it isn't there yet.
    pub fn add(&mut self, alloc: Global, name: &Text) -> Result<(), AllocError>
        ensures { OnOk result (self.new ≡ with_name self.old name.now) }
    {
        let key = String::from_str(alloc, name.as_str())?;
        self.set.insert(key)?;
        Ok(())
    }

    /// Adds names at the end, each once.
    pub fn add_all(&mut self, alloc: Global, names: &Texts) -> Result<(), AllocError>
        ensures { OnOk result (self.new ≡ with_names self.old names.now) }
    {
        for name in names.as_slice() {
            self.add(alloc, name)?;
        }
        Ok(())
    }

    /// Keeps so many names at the front. It takes no memory.
    pub fn shorten(&mut self, len: usize)
        ensures { self.new ≡ take len self.old }
    {
        self.set.truncate(len);
    }

    /// The list of the names.
    pub fn to_texts(&self, alloc: Global) -> Result<Texts, AllocError>
        ensures { IfOk result (λ t. t ≡ self.now) }
    {
        let mut texts = Texts::new(alloc);
        for name in self.set.as_slice() {
            texts.push(Text::from_str(alloc, name.as_str())?)?;
        }
        Ok(texts)
    }
}
