// The ids of each node.
ghost use Rattle.std.specs.Prelude.{◌≡◌, [], ◌∷◌, ◌++◌, OnOk, OnErr, unwrap_or};
ghost use Rattle.gl_arena.specs.Id.{Id as SeenId};
ghost use Rattle.gl_mods.specs.Mods.{ids_at, with_id, without_node};
ghost use Rattle.gl_mods.specs.Kept.{IsMaybeMore};
ghost use Rattle.gl_mods.specs.View.{lists_in};

use gl_arena::{Id, ModId, NodeMark};
use std::alloc::{AllocError, Global};
use std::collections::BTreeMap;

pub(crate) type Lists = BTreeMap<Id<NodeMark>, Vec<ModId>>;

// Puts an id at the end of those of a node.
fn push_at(
    lists: &mut Lists,
    alloc: Global,
    node: Id<NodeMark>,
    id: ModId,
) -> Result<(), AllocError>
    ensures ok { OnOk result ((n : SeenId) → ids_at n (lists_in lists.new) ≡ with_id node id (λ m. ids_at m (lists_in lists.old)) n) }
    ensures err { OnErr result ((n : SeenId) → ids_at n (lists_in lists.new) ≡ ids_at n (lists_in lists.old)) }
{
    match lists.get_mut(&node) {
        Some(ids) => {
            ids.push(id)?;
            Ok(())
        }
        None => push_first(lists, alloc, node, id),
    }
}

// Puts the first id on a node.
fn push_first(
    lists: &mut Lists,
    alloc: Global,
    node: Id<NodeMark>,
    id: ModId,
) -> Result<(), AllocError>
    requires { ids_at node (lists_in lists.old) ≡ [] }
    ensures ok { OnOk result ((n : SeenId) → ids_at n (lists_in lists.new) ≡ with_id node id (λ m. ids_at m (lists_in lists.old)) n) }
    ensures err { OnErr result ((n : SeenId) → ids_at n (lists_in lists.new) ≡ ids_at n (lists_in lists.old)) }
{
    let mut ids = Vec::new(alloc);
    ids.push(id)?;
    lists.insert(node, ids)?;
    Ok(())
}

// Puts an id at the end of the installs, and of those of its node.
pub(crate) fn list(
    installs: &mut Vec<ModId>,
    lists: &mut Lists,
    alloc: Global,
    node: Id<NodeMark>,
    id: ModId,
) -> Result<(), AllocError>
    ensures ok { OnOk result ((n : SeenId) → ids_at n (lists_in lists.new) ≡ with_id node id (λ m. ids_at m (lists_in lists.old)) n) }
    ensures installs { OnOk result (installs.new.items ≡ installs.old.items ++ id ∷ []) }
    ensures err { OnErr result ((n : SeenId) → ids_at n (lists_in lists.new) ≡ ids_at n (lists_in lists.old)) }
    ensures kept { OnErr result (IsMaybeMore id installs.old.items installs.new.items) }
{
    installs.push(id)?;
    push_at(lists, alloc, node, id)
}

// The ids of a node, which has none then.
pub(crate) fn take_all(lists: &mut Lists, alloc: Global, node: Id<NodeMark>) -> Vec<ModId>
    ensures taken { result.items ≡ ids_at node (lists_in lists.old) }
    ensures left { (n : SeenId) → ids_at n (lists_in lists.new) ≡ without_node node (λ m. ids_at m (lists_in lists.old)) n }
{
    lists.remove(&node).unwrap_or(Vec::new(alloc))
}
