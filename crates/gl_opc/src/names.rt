// Places of names in lists.
ghost use Rattle.std.specs.Prelude.{◌≡◌, true, ℕ, List, IfOk, map, position};
ghost use Rattle.std.specs.Str.{bytes_eq};
ghost use Rattle.gl_opc.specs.NamePlaces.{rising, IsIndexOf};

use gl_ast::NamedExpr;
use gl_meaning::{Action, Class};
use gl_value::{Text, Texts, Value};
use indexmap::IndexSet;
use std::alloc::{AllocError, Global};

/// What has a name.
pub trait Named {
    /// The name's characters.
    ghost called: { Self → List ℕ };

    fn name(&self) -> &Text
        ensures { result.now ≡ called self.now };
}

impl Named for Class {
    ghost called = { λ c. c.name };

    fn name(&self) -> &Text {
        &self.name
    }
}

impl Named for NamedExpr {
    ghost called = { λ g. g.name };

    fn name(&self) -> &Text {
        &self.name
    }
}

impl Named for Action {
    ghost called = { λ a. a.name };

    fn name(&self) -> &Text {
        &self.name
    }
}

impl Named for (Text, Value) {
    ghost called = { λ f. f.0 };

    fn name(&self) -> &Text {
        &self.0
    }
}

/// Whether names rise by bytes.
pub fn rise<T: Named>(items: &[T]) -> bool
    ensures { result ≡ rising (map T.called items.now) }
{
    let mut rest = items;
    while let [first, tail @ ..] = rest {
        if let [second, ..] = tail {
            if !first.name().is_before(second.name()) {
                return false;
            }
        }
        rest = tail;
    }
    true
}

// The place of a name among names that rise, by halves.
fn place_by_halves<T: Named>(items: &[T], name: &Text) -> Option<usize>
    requires { rising (map T.called items.now) ≡ true }
    ensures { result ≡ position (λ x. bytes_eq name.now (T.called x)) items.now }
{
    let place = items.partition_point(|item| item.name().is_before(name));
    if place < items.len() && name.same(items[place].name()) {
        Some(place)
    } else {
        None
    }
}

/// The place of the first item of a name: by halves where the names are known to rise.
pub fn place<T: Named>(items: &[T], rise: bool, name: &Text) -> Option<usize>
    requires { rise ≡ true → rising (map T.called items.now) ≡ true }
    ensures { result ≡ position (λ x. bytes_eq name.now (T.called x)) items.now }
{
    if rise {
        place_by_halves(items, name)
    } else {
        items.iter().position(|item| name.same(item.name()))
    }
}

/// An index of names, which is whole where no name stands twice.
#[derive(Drop)]
pub struct NameIndex {
    set: IndexSet<String>,
    whole: bool,
}

impl NameIndex {
    /// No index. It takes no memory.
    pub fn none(alloc: Global, names: &Texts) -> NameIndex
        ensures { IsIndexOf result names.now }
    {
        NameIndex {
            set: IndexSet::new(alloc),
            whole: false,
        }
    }

    /// An index of names.
    pub fn of(alloc: Global, names: &Texts) -> Result<NameIndex, AllocError>
        ensures { IfOk result (λ i. IsIndexOf i names.now) }
    {
        let mut set = IndexSet::new(alloc);
        for name in names.as_slice() {
            let key = String::from_str(alloc, name.as_str())?;
            if !set.insert(key)? {
                return Ok(NameIndex { set, whole: false });
            }
        }
        Ok(NameIndex { set, whole: true })
    }

    /// The place of the first of the names that is this one.
    pub fn place(&self, names: &Texts, name: &Text) -> Option<usize>
        requires { IsIndexOf self.now names.now }
        ensures { result ≡ position (λ t. bytes_eq name.now t) names.now }
    {
        if self.whole {
            self.set.get_index_of(name.as_str())
        } else {
            names.as_slice().iter().position(|text| name.same(text))
        }
    }
}
