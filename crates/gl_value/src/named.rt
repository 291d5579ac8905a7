// Names with values.
ghost use Rattle.std.specs.Prelude.{◌≡◌, ◌<◌, [], ◌∷◌, ◌++◌, OnOk, OnErr, option_map, not, vec_len, slice_set, slice_index_or, length};
ghost use Rattle.std.specs.List.{find, prefix_len};
ghost use Rattle.std.specs.Str.{bytes_eq, chars};
ghost use Rattle.gl_base.specs.Names.{named};
ghost use Rattle.gl_value.specs.Named.{set_named};
ghost use Rattle.gl_value.specs.View.{view, seen_entries};

use crate::{Text, Value};
use std::alloc::{AllocError, Global};
use std::marker::Model;
use std::mem;

/// A list of names with values. Contracts see the names as texts and the values as definitions see them.
#[derive(Drop)]
pub struct NamedValues {
    list: Vec<(Text, Value)>,
}

impl Model for NamedValues {
    ghost use Rattle.gl_value.specs.Value as v;
    ghost use Rattle.gl_value.specs.View.{seen_entries};
    ghost use Rattle.std.specs.Prelude.{List, ℕ};
    ghost use Rattle.gl_value.specs.Code.{value_code};
    ghost use Rattle.std.specs.Coded.{coded×, coded_list, coded_ℕ};

    ghost Value = { List (List ℕ × v.Value ℕ) };

    ghost coded = { coded_list (coded× (coded_list coded_ℕ) value_code) };

    ghost view = { λ n. seen_entries n.list.items };
}

impl NamedValues {
    /// The empty list. It takes no memory.
    pub fn new(alloc: Global) -> NamedValues
        ensures { result ≡ [] }
    {
        NamedValues {
            list: Vec::new(alloc),
        }
    }

    /// The list of the pairs of a vector. It takes no memory.
    pub fn from_vec(list: Vec<(Text, Value)>) -> NamedValues
        ensures { result ≡ seen_entries list.items }
    {
        NamedValues { list }
    }

    /// Gives the vector back. It takes no memory.
    pub fn into_vec(self) -> Vec<(Text, Value)>
        ensures { seen_entries result.items ≡ self }
    {
        self.list
    }

    pub fn as_slice(&self) -> &[(Text, Value)]
        ensures { seen_entries result.now ≡ self.now }
    {
        self.list.as_slice()
    }

    pub fn len(&self) -> usize
        ensures { result ≡ length self.now }
    {
        self.list.len()
    }

    /// Adds a name with a value at the end.
    pub fn push(&mut self, name: Text, value: Value) -> Result<(), AllocError>
        ensures ok { OnOk result (self.new ≡ self.old ++ (name, view value) ∷ []) }
        ensures err { OnErr result (self.new ≡ self.old) }
    {
        self.list.push((name, value))?;
        Ok(())
    }

    /// The first value of that name.
    pub fn get(&self, name: &str) -> Option<&Value>
        ensures { option_map (λ v. view v.now) result ≡ named (chars name.now) self.now }
    {
        value_of(self.list.as_slice(), name)
    }

    /// Puts a value in the place of the first of that name, where there is one.
    pub fn set(&mut self, name: &str, value: Value)
        ensures { self.new ≡ set_named (chars name.now) (view value) self.old }
    {
        let place = place_of(self.list.as_slice(), name);
        if place < self.list.len() {
            put_at(&mut self.list, place, value);
        }
    }
}

// The value of the first entry of that name.
fn value_of<'a>(entries: &'a [(Text, Value)], name: &str) -> Option<&'a Value>
    ensures { option_map (λ v. view v.now) result ≡ option_map (λ e. view e.1) (find (λ e. bytes_eq (chars name.now) e.0) entries.now) }
{
    entries
        .iter()
        .find(|entry| entry.0.is(name))
        .map(|entry| &entry.1)
}

fn put_at(entries: &mut Vec<(Text, Value)>, place: usize, value: Value)
    requires { place < vec_len entries.old }
    ensures { entries.new.items ≡ slice_set entries.old.items place ((slice_index_or entries.old.items place ([], value)).0, value) }
{
    let entry = &mut entries[place];
    drop(mem::replace(&mut entry.1, value));
}

// How many entries stand before the first of that name.
fn place_of(entries: &[(Text, Value)], name: &str) -> usize
    ensures { result ≡ prefix_len (λ e. not (bytes_eq (chars name.now) e.0)) entries.now }
{
    entries.iter().take_while(|entry| !entry.0.is(name)).count()
}
