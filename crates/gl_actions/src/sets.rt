// What actions set.
ghost use Rattle.std.specs.Prelude.{◌≡◌, [], ◌∷◌, ◌++◌, IfOk, OnOk, OnErr, length};
ghost use Rattle.gl_actions.specs.View.{seen_set, seen_sets};

use gl_arena::{Id, InstMark};
use gl_value::Value;
use std::alloc::{AllocError, Global};
use std::marker::Model;

/// What a field is set to: the instance, the place of the field among those of its class, and a plain form.
#[derive(Drop)]
pub struct Set {
    pub owner: Id<InstMark>,
    pub field: u16,
    pub to: Value,
}

/// A list of sets, in their order. Contracts see the values as definitions see them.
#[derive(Drop)]
pub struct Sets {
    list: Vec<Set>,
}

impl Model for Sets {
    ghost use Rattle.std.specs.Prelude.{List};
    ghost use Rattle.std.specs.Coded.{coded_list};
    ghost use Rattle.gl_actions.specs.Sets as s;
    ghost use Rattle.gl_actions.specs.Sets.{set_code};
    ghost use Rattle.gl_actions.specs.View.{seen_sets};

    ghost Value = { List s.Set };

    ghost coded = { coded_list set_code };

    ghost view = { λ a. seen_sets a.list.items };
}

impl Sets {
    /// The empty list. It takes no memory.
    pub fn new(alloc: Global) -> Sets
        ensures { result ≡ [] }
    {
        Sets {
            list: Vec::new(alloc),
        }
    }

    pub fn as_slice(&self) -> &[Set]
        ensures { seen_sets result.now ≡ self.now }
    {
        self.list.as_slice()
    }

    pub fn into_vec(self) -> Vec<Set>
        ensures { seen_sets result.items ≡ self }
    {
        self.list
    }

    pub fn len(&self) -> usize
        ensures { result ≡ length self.now }
    {
        self.list.len()
    }

    /// Adds a set at the end.
    pub fn push(&mut self, set: Set) -> Result<(), AllocError>
        ensures ok { OnOk result (self.new ≡ self.old ++ seen_set set ∷ []) }
        ensures err { OnErr result (self.new ≡ self.old) }
    {
        self.list.push(set)?;
        Ok(())
    }

    /// Another list of the same sets.
    pub fn copy(&self) -> Result<Sets, AllocError>
        ensures { IfOk result (λ r. r ≡ self.now) }
    {
        let list = copied(*self.list.allocator(), self.list.as_slice())?;
        Ok(Sets { list })
    }
}

impl Set {
    fn copy(&self) -> Result<Set, AllocError>
        ensures { IfOk result (λ r. seen_set r ≡ seen_set self.now) }
    {
        Ok(Set {
            owner: self.owner,
            field: self.field,
            to: self.to.copy()?,
        })
    }
}

fn copied(alloc: Global, sets: &[Set]) -> Result<Vec<Set>, AllocError>
    ensures { IfOk result (λ r. seen_sets r.items ≡ seen_sets sets.now) }
{
    let mut list = Vec::with_capacity(alloc, sets.len())?;
    for set in sets {
        list.push(set.copy()?)?;
    }
    Ok(list)
}
