// Places among the children of a parent.
ghost use Rattle.std.specs.Prelude.{◌≡◌, IfOk, map, Some};
ghost use Rattle.gl_nodes.specs.Flat.{stamp_of};
ghost use Rattle.gl_seats.specs.Parts.{body_nest, items_nest};
ghost use Rattle.gl_code.specs.Hung.{tops};
ghost use Rattle.gl_seats.specs.Seats.{last_of, IsBehind, IsBefore};

use crate::tops::{first_top, last_top};
use gl_code::{Codes, ItemCode};
use gl_nodes::{NodeId, NodeTree};
use std::alloc::AllocError;

/// Where nodes are put: below a parent, or at the top, and there before the next one, or at the end.
#[derive(Clone, Copy)]
pub struct Seat {
    pub parent: Option<NodeId>,
    pub next: Option<NodeId>,
}

/// The place behind the last node of a body with its comment. Where it has no node at all, as no branch and no item, or that node is not in
/// the tree, it answers as for want of memory.
pub fn behind(
    tree: &NodeTree,
    parent: &Option<NodeId>,
    body: &Codes,
    comment: &Option<NodeId>,
) -> Result<Seat, AllocError>
    ensures parent { IfOk result (λ s. s.parent ≡ parent.now) }
    ensures behind { IfOk result (λ s. (n : _) → IsBehind tree.now.forest (stamp_of parent.now) (body_nest n body.now comment.now) (stamp_of s.next)) }
{
    match last_top(body, comment) {
        Some(node) => after(tree, parent, node),
        None => Err(AllocError),
    }
}

// The place behind a node.
fn after(tree: &NodeTree, parent: &Option<NodeId>, node: NodeId) -> Result<Seat, AllocError>
    ensures parent { IfOk result (λ s. s.parent ≡ parent.now) }
    ensures behind { IfOk result (λ s. (x : _) → last_of (tops x) ≡ Some node.1 → IsBehind tree.now.forest (stamp_of parent.now) x (stamp_of s.next)) }
{
    tree.flat();
    match tree.find(node) {
        Some(_) => Ok(Seat {
            parent: *parent,
            next: tree.after(node),
        }),
        None => Err(AllocError),
    }
}

/// The place behind the last item. Where there is none it answers as for want of memory.
pub fn behind_items(
    tree: &NodeTree,
    parent: &Option<NodeId>,
    items: &[ItemCode],
) -> Result<Seat, AllocError>
    ensures parent { IfOk result (λ s. s.parent ≡ parent.now) }
    ensures behind { IfOk result (λ s. (n : _) → IsBehind tree.now.forest (stamp_of parent.now) (items_nest n items.now) (stamp_of s.next)) }
{
    match items.last() {
        Some(item) => behind(tree, parent, &item.body, &item.comment),
        None => Err(AllocError),
    }
}

/// The place before the first item. Where there is none, or it has no node, it answers as for want of memory.
pub fn before_items(parent: &Option<NodeId>, items: &[ItemCode]) -> Result<Seat, AllocError>
    ensures parent { IfOk result (λ s. s.parent ≡ parent.now) }
    ensures before { IfOk result (λ s. (n : _) → IsBefore (items_nest n items.now) (stamp_of s.next)) }
{
    match items.first() {
        Some(item) => before(parent, &item.body, &item.comment),
        None => Err(AllocError),
    }
}

fn before(
    parent: &Option<NodeId>,
    body: &Codes,
    comment: &Option<NodeId>,
) -> Result<Seat, AllocError>
    ensures parent { IfOk result (λ s. s.parent ≡ parent.now) }
    ensures before { IfOk result (λ s. (n : _) → IsBefore (body_nest n body.now comment.now) (stamp_of s.next)) }
{
    match first_top(body, comment) {
        Some(node) => Ok(Seat {
            parent: *parent,
            next: Some(node),
        }),
        None => Err(AllocError),
    }
}
