// The texts of a program, each once.
ghost use Rattle.std.specs.Prelude.{◌≡◌, [], ◌++◌, IfOk, OnOk};
ghost use Rattle.gl_meaning.specs.Laws.{NoRepeat};
ghost use Rattle.gl_opc.specs.Piece.{missing};
ghost use Rattle.gl_wire.specs.Symbols.{place_of};

use crate::linker::number32;
use gl_value::{Text, Texts};
use indexmap::IndexSet;
use std::alloc::{AllocError, Global};
use std::marker::Model;

/// Texts, each once, in the order in which they came. Contracts see their list.
#[derive(Drop)]
pub struct Pool {
    alloc: Global,
    set: IndexSet<String>,
}

impl Model for Pool {
    ghost use Rattle.std.specs.Prelude.{ℕ, List, map, string_bytes};
    ghost use Rattle.std.specs.Str.{chars};
    ghost use Rattle.gl_meaning.specs.Laws.{NoRepeat};

    ghost Value = { List (List ℕ) };

    ghost view = { λ p. map (λ k. chars (string_bytes k)) p.set.keys };

    ghost invariant = { λ p. NoRepeat (map (λ k. chars (string_bytes k)) p.set.keys) };
}

impl Pool {
    /// No texts. It takes no memory.
    pub fn new(alloc: Global) -> Pool
        ensures { result ≡ [] }
    {
        Pool {
            alloc,
            set: IndexSet::new(alloc),
        }
    }

    /// Adds a text at the end, where it doesn't stand there yet, and gives its place.
    pub fn put(&mut self, text: &Text) -> Result<u32, AllocError>
        ensures place { IfOk result (λ i. i ≡ place_of self.old text.now) }
        ensures added { OnOk result (self.new ≡ self.old ++ missing self.old text.now) }
    {
        if let Some(place) = self.set.get_index_of(text.as_str()) {
            return number32(place);
        }
        let place = number32(self.set.len())?;
        let key = String::from_str(self.alloc, text.as_str())?;
        self.set.insert(key)?;
        Ok(place)
    }

    /// The list of the texts.
    pub fn into_texts(self) -> Result<Texts, AllocError>
        ensures all { IfOk result (λ t. t ≡ self) }
        ensures once { IfOk result (λ t. NoRepeat t) }
    {
        let mut texts = Texts::new(self.alloc);
        let mut set = self.set;
        for text in set.drain(..) {
            texts.push(Text::from_string(text)?)?;
        }
        Ok(texts)
    }
}
