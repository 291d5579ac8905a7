// The walk of a tree, and the end of all that stands in it.
ghost use Rattle.std.specs.Prelude.{◌≡◌, ◌<◌, ◌≤◌, ◌++◌, reverse, IfOk, OnOk, IsSome};
ghost use Rattle.gl_arena.specs.Id.{Id};
ghost use Rattle.gl_destroy.specs.Forest.{children_first};
ghost use Rattle.gl_destroy.specs.Links.{IsTree, living, ended, times_in, tree_in};
ghost use Rattle.gl_destroy.specs.View.{look_in, seen_pairs};

use crate::What;
use crate::entries::Entries;
use gl_arena::DestroyId;
use std::alloc::{AllocError, Global};

// Puts those of some ids that live on a stack.
pub(crate) fn push_living(
    entries: &Entries,
    stack: &mut Vec<DestroyId>,
    ids: &[DestroyId],
) -> Result<(), AllocError>
    ensures { OnOk result (stack.new.items ≡ stack.old.items ++ living (look_in entries.now) ids.now) }
{
    for id in ids {
        if entries.live(*id) {
            stack.push(*id)?;
        }
    }
    Ok(())
}

// All that stands in the tree of an id: each before its children, and the last child first. The stack has the ids
// whose trees are left, so it is never longer than the forest.
pub(crate) fn parents_first(
    entries: &Entries,
    alloc: Global,
    id: DestroyId,
) -> Result<Vec<(DestroyId, What)>, AllocError>
    requires { IsTree (look_in entries.now) entries.now.made id (tree_in (look_in entries.now) entries.now.made id) }
    ensures { IfOk result (λ order. seen_pairs (reverse order.items) ≡ children_first (tree_in (look_in entries.now) entries.now.made id)) }
{
    let mut order = Vec::new(alloc);
    let mut stack = Vec::new(alloc);
    stack.push(id)?;
    while let Some(at) = stack.pop() {
        let entry = entries.get(at);
        order.push((at, entry.what))?;
        push_living(entries, &mut stack, entry.children.list.as_slice())?;
    }
    Ok(order)
}

// Ends these ids.
pub(crate) fn end_all(entries: &mut Entries, order: &[(DestroyId, What)])
    requires live { (i : Id) → 0 < times_in i order.now → IsSome (look_in entries.old i) }
    requires once { (i : Id) → times_in i order.now ≤ 1 }
    ensures ended { (i : Id) → look_in entries.new i ≡ ended (λ k. times_in k order.now) (look_in entries.old) i }
    ensures made { entries.new.made ≡ entries.old.made }
{
    for entry in order {
        drop(entries.remove(entry.0));
    }
}
