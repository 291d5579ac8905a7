// The entries of a forest, and the lists of their children.
ghost use Rattle.std.specs.Prelude.{◌≡◌, IfOk, OnOk, OnErr, IsSome};
ghost use Rattle.gl_arena.specs.Arena.{Gives};
ghost use Rattle.gl_destroy.specs.Links.{listed, listed_in, ids_with};
ghost use Rattle.gl_destroy.specs.View.{seen_what, look_in, AddsEntry, IsListed};

use crate::What;
use crate::siblings::Siblings;
use gl_arena::{Arena, DestroyId, DestroyMark};
use std::alloc::{AllocError, Global};

// What an id stands for, with its children in order.
#[derive(Drop)]
pub(crate) struct Entry {
    pub(crate) what: What,
    pub(crate) children: Siblings,
}

pub(crate) type Entries = Arena<Entry, DestroyMark>;

fn put(entries: &mut Entries, entry: Entry) -> Result<DestroyId, AllocError>
    ensures ok { IfOk result (λ id. Gives entries.old entries.new id entry) }
    ensures err { OnErr result (entries.new ≡ entries.old) }
{
    match entries.insert(entry) {
        Ok(id) => Ok(id),
        Err((_, error)) => Err(error),
    }
}

// Adds an entry without children.
pub(crate) fn insert_entry(
    entries: &mut Entries,
    alloc: Global,
    what: What,
) -> Result<DestroyId, AllocError>
    ensures ok { IfOk result (λ id. AddsEntry entries.old entries.new id (seen_what what)) }
    ensures err { OnErr result (entries.new ≡ entries.old) }
{
    let children = Siblings::new(alloc);
    put(entries, Entry { what, children })
}

// Puts an id at the end of the children of a parent.
fn push_child(entries: &mut Entries, parent: DestroyId, id: DestroyId) -> Result<(), AllocError>
    requires { IsSome (look_in entries.old parent) }
    ensures ok { OnOk result (look_in entries.new ≡ listed parent id (look_in entries.old)) }
    ensures err { OnErr result (look_in entries.new ≡ look_in entries.old) }
    ensures made { entries.new.made ≡ entries.old.made }
{
    entries.get_mut(parent).children.list.push(id)?;
    Ok(())
}

// Puts an id at the end of the children of a parent, or of the trees themselves.
pub(crate) fn hang(
    entries: &mut Entries,
    trees: &mut Siblings,
    parent: Option<DestroyId>,
    id: DestroyId,
) -> Result<(), AllocError>
    requires { IsListed (look_in entries.old) parent }
    ensures ok { OnOk result (look_in entries.new ≡ listed_in parent id (look_in entries.old)) }
    ensures trees { OnOk result (trees.new.list.items ≡ ids_with parent id trees.old.list.items) }
    ensures err { OnErr result (look_in entries.new ≡ look_in entries.old) }
    ensures kept { OnErr result (trees.new.list.items ≡ trees.old.list.items) }
    ensures made { entries.new.made ≡ entries.old.made }
{
    match parent {
        None => {
            trees.list.push(id)?;
            Ok(())
        }
        Some(parent) => push_child(entries, parent, id),
    }
}
