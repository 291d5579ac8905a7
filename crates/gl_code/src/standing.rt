// The nodes of what was rendered, put into the tree.
ghost use Rattle.std.specs.Prelude.{◌≡◌, None, map, OnOk};
ghost use Rattle.gl_nodes.specs.Flat.{IsFlat, stamp_of};
ghost use Rattle.gl_machine.specs.Code.{live_of, lives_of, items_of};
ghost use Rattle.gl_machine.specs.Shape.{nest, nest_in, nest_items, nest_comment, joined, leaf, end, tree as nested};
ghost use Rattle.gl_code.specs.CodeView.{seen_code, seen_codes, seen_item_code, all_items};
ghost use Rattle.gl_code.specs.Hung.{Hangs, nest_of};

use crate::code::{Code, Codes, ItemCode};
use gl_nodes::{NodeId, NodeTree};
use std::alloc::AllocError;

/// Puts the nodes of what was rendered into the tree, at the end of the children of a parent or of the forest: in their
/// order, nested as they were rendered. Where one of them is not a made node that is not in the tree, or the parent not
/// an element of the tree, it answers as for want of memory.
pub fn hang(tree: &mut NodeTree, parent: Option<NodeId>, codes: &Codes) -> Result<(), AllocError>
    ensures hangs { (n : _) → OnOk result (Hangs tree.old tree.new (stamp_of parent) (nest_in (lives_of (seen_codes n codes.now)))) }
    ensures whole { (n : _) → OnOk result (parent ≡ None → nest_of tree.new.forest ≡ joined (nest_of tree.old.forest) (nest_in (lives_of (seen_codes n codes.now)))) }
    ensures sound { IsFlat tree.new }
    ensures moves { OnOk result (tree.new.moves ≡ tree.old.moves) }
{
    tree.flat();
    hang_codes(tree, &parent, codes)
}

#[cycle(standing)]
fn hang_codes(tree: &mut NodeTree, parent: &Option<NodeId>, codes: &Codes) -> Result<(), AllocError>
    ensures hangs { (n : _) → OnOk result (Hangs tree.old tree.new (stamp_of parent.now) (nest_in (lives_of (seen_codes n codes.now)))) }
    ensures sound { IsFlat tree.new }
    ensures moves { OnOk result (tree.new.moves ≡ tree.old.moves) }
{
    tree.flat();
    for code in codes.list.as_slice() {
        hang_code(tree, parent, code)?;
    }
    Ok(())
}

#[cycle(standing)]
fn hang_code(tree: &mut NodeTree, parent: &Option<NodeId>, code: &Code) -> Result<(), AllocError>
    ensures hangs { (n : _) → OnOk result (Hangs tree.old tree.new (stamp_of parent.now) (nest (live_of (seen_code n code.now)))) }
    ensures sound { IsFlat tree.new }
    ensures moves { OnOk result (tree.new.moves ≡ tree.old.moves) }
{
    match code {
        Code::Still { node } => hang_leaf(tree, parent, *node),
        Code::Put { node, .. } => hang_leaf(tree, parent, *node),
        Code::Element { node, body, .. } => hang_element(tree, parent, *node, body),
        Code::Branch { comment, body, .. } => hang_body(tree, parent, body, comment),
        Code::Listed { items, .. } => hang_items(tree, parent, items),
        Code::Unlisted { comment, body, .. } => hang_body(tree, parent, body, comment),
        Code::Let { body, .. } => hang_codes(tree, parent, body),
        Code::Component { body, .. } => hang_codes(tree, parent, body),
        Code::Root { body, .. } => hang_codes(tree, parent, body),
        Code::Yield { body, .. } => hang_codes(tree, parent, body),
    }
}

// A node, and in it those of its body.
#[cycle(standing)]
fn hang_element(
    tree: &mut NodeTree,
    parent: &Option<NodeId>,
    node: NodeId,
    body: &Codes,
) -> Result<(), AllocError>
    ensures hangs { (n : _) → OnOk result (Hangs tree.old tree.new (stamp_of parent.now) (nested node.1 (nest_in (lives_of (seen_codes n body.now))) end)) }
    ensures sound { IsFlat tree.new }
    ensures moves { OnOk result (tree.new.moves ≡ tree.old.moves) }
{
    tree.put_last(*parent, node)?;
    hang_codes(tree, &Some(node), body)
}

#[cycle(standing)]
fn hang_items(
    tree: &mut NodeTree,
    parent: &Option<NodeId>,
    items: &Vec<ItemCode>,
) -> Result<(), AllocError>
    ensures hangs { (n : _) → OnOk result (Hangs tree.old tree.new (stamp_of parent.now) (nest_items (items_of (all_items (map (seen_item_code n) items.now.items))))) }
    ensures sound { IsFlat tree.new }
    ensures moves { OnOk result (tree.new.moves ≡ tree.old.moves) }
{
    tree.flat();
    for item in items.as_slice() {
        hang_item(tree, parent, item)?;
    }
    Ok(())
}

#[cycle(standing)]
fn hang_item(
    tree: &mut NodeTree,
    parent: &Option<NodeId>,
    item: &ItemCode,
) -> Result<(), AllocError>
    ensures hangs { (n : _) → let x = seen_item_code n item.now in OnOk result (Hangs tree.old tree.new (stamp_of parent.now) (joined (nest_in (lives_of x.1.1)) (nest_comment x.1.0))) }
    ensures sound { IsFlat tree.new }
    ensures moves { OnOk result (tree.new.moves ≡ tree.old.moves) }
{
    hang_body(tree, parent, &item.body, &item.comment)
}

// The nodes of a body, and after them the comment where there is one.
#[cycle(standing)]
fn hang_body(
    tree: &mut NodeTree,
    parent: &Option<NodeId>,
    body: &Codes,
    comment: &Option<NodeId>,
) -> Result<(), AllocError>
    ensures hangs { (n : _) → OnOk result (Hangs tree.old tree.new (stamp_of parent.now) (joined (nest_in (lives_of (seen_codes n body.now))) (nest_comment (stamp_of comment.now)))) }
    ensures sound { IsFlat tree.new }
    ensures moves { OnOk result (tree.new.moves ≡ tree.old.moves) }
{
    hang_codes(tree, parent, body)?;
    hang_comment(tree, parent, comment)
}

fn hang_comment(
    tree: &mut NodeTree,
    parent: &Option<NodeId>,
    comment: &Option<NodeId>,
) -> Result<(), AllocError>
    ensures hangs { OnOk result (Hangs tree.old tree.new (stamp_of parent.now) (nest_comment (stamp_of comment.now))) }
    ensures sound { IsFlat tree.new }
    ensures moves { OnOk result (tree.new.moves ≡ tree.old.moves) }
{
    tree.flat();
    match comment {
        Some(node) => hang_leaf(tree, parent, *node),
        None => Ok(()),
    }
}

fn hang_leaf(tree: &mut NodeTree, parent: &Option<NodeId>, node: NodeId) -> Result<(), AllocError>
    ensures hangs { OnOk result (Hangs tree.old tree.new (stamp_of parent.now) (leaf node.1)) }
    ensures sound { IsFlat tree.new }
    ensures moves { OnOk result (tree.new.moves ≡ tree.old.moves) }
{
    tree.put_last(*parent, node)
}
