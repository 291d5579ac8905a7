// The ids of siblings. Those that were destroyed may stay among them: the arena tells which live.
ghost use Rattle.std.specs.Prelude.{◌≡◌, ℕ, [], IfOk, IsSome, Some};
ghost use Rattle.gl_arena.specs.Arena.{named, with_value};
ghost use Rattle.gl_destroy.specs.Links.{living, AreGiven, IsThinned};
ghost use Rattle.gl_destroy.specs.View.{look_in};

use crate::entries::{Entries, Entry};
use crate::walk::push_living;
use gl_arena::DestroyId;
use std::alloc::{AllocError, Global};

// A list of less than this is left as it is.
const FEW: usize = 8;

// Siblings in order. Where the list has come to its limit, those that live no more are dropped before another one is
// added. The limit is then twice what is left, so each one that is added pays for a constant number of steps.
#[derive(Drop)]
pub(crate) struct Siblings {
    pub(crate) list: Vec<DestroyId>,
    limit: usize,
}

impl Siblings {
    pub(crate) fn new(alloc: Global) -> Siblings
        ensures { result.list.items ≡ [] }
    {
        Siblings {
            list: Vec::new(alloc),
            limit: FEW,
        }
    }

    // Whether it is time to drop those that live no more.
    pub(crate) fn is_crowded(&self) -> bool {
        self.list.len() >= self.limit
    }

    // Those that live.
    pub(crate) fn thinned(&self, entries: &Entries, alloc: Global) -> Result<Siblings, AllocError>
        ensures { IfOk result (λ s. s.list.items ≡ living (look_in entries.now) self.now.list.items) }
    {
        let mut list = Vec::new(alloc);
        push_living(entries, &mut list, self.list.as_slice())?;
        let limit = list.len().saturating_mul(2).max(FEW);
        Ok(Siblings { list, limit })
    }
}

fn put_siblings(entry: &mut Entry, children: Siblings)
    ensures { entry.new ≡ record entry.old { children = children } }
{
    entry.children = children;
}

fn put_children(entries: &mut Entries, parent: DestroyId, children: Siblings)
    requires { IsSome (look_in entries.old parent) }
    ensures { (e : _) → named entries.old parent ≡ Some e → entries.new ≡ with_value entries.old parent (record e { children = children }) }
{
    put_siblings(entries.get_mut(parent), children);
}

// Drops those children of a parent that live no more, where it is time.
pub(crate) fn thin_children(
    entries: &mut Entries,
    alloc: Global,
    parent: DestroyId,
) -> Result<(), AllocError>
    requires { IsSome (look_in entries.old parent) }
    ensures lists { IsThinned (look_in entries.old) (look_in entries.new) }
    ensures made { entries.new.made ≡ entries.old.made }
{
    let children = &entries.get(parent).children;
    if children.is_crowded() {
        let children = children.thinned(entries, alloc)?;
        put_children(entries, parent, children);
    }
    Ok(())
}

// Drops those trees that live no more, where it is time.
pub(crate) fn thin_trees(
    entries: &Entries,
    alloc: Global,
    trees: &mut Siblings,
) -> Result<(), AllocError>
    ensures trees { living (look_in entries.now) trees.new.list.items ≡ living (look_in entries.now) trees.old.list.items }
    ensures given { (made : ℕ) → AreGiven made trees.old.list.items → AreGiven made trees.new.list.items }
{
    if trees.is_crowded() {
        *trees = trees.thinned(entries, alloc)?;
    }
    Ok(())
}
