// New nodes are put before a node of the tree, with all that was rendered in them.
ghost use Rattle.std.specs.Prelude.{◌≡◌, OnOk, map};
ghost use Rattle.gl_nodes.specs.Flat.{IsFlat, stamp_of};
ghost use Rattle.gl_machine.specs.Shape.{leaf, end, tree as nested, nest_comment};
ghost use Rattle.gl_seats.specs.Parts.{code_nest, codes_nest, body_nest, items_nest};
ghost use Rattle.gl_seats.specs.Seats.{SeatsBefore};

use crate::places::Seat;
use gl_code::{Code, Codes, ItemCode, hang};
use gl_nodes::{NodeId, NodeTree};
use std::alloc::AllocError;

/// Puts the nodes of a body, which stand nowhere, and after them the comment where there is one, before the next node of a seat or at the
/// end of its parent. Where one of them is not a made node that is not in the tree, the parent not an element of the tree, or the next
/// node not a child of it, it answers as for want of memory.
#[cycle(seating)]
#[inline(never)]
pub fn seat_body(
    tree: &mut NodeTree,
    seat: &Seat,
    body: &Codes,
    comment: &Option<NodeId>,
) -> Result<(), AllocError>
    ensures nodes { OnOk result (tree.new.nodes ≡ tree.old.nodes) }
    ensures seats { OnOk result ((n : _) → SeatsBefore tree.old.forest tree.new.forest (stamp_of seat.now.parent) (stamp_of seat.now.next) (body_nest n body.now comment.now)) }
    ensures moves { OnOk result (tree.new.moves ≡ tree.old.moves) }
    ensures sound { IsFlat tree.new }
{
    seat_codes(tree, seat, body)?;
    seat_comment(tree, seat, comment)
}

#[cycle(seating)]
#[inline(never)]
fn seat_codes(tree: &mut NodeTree, seat: &Seat, codes: &Codes) -> Result<(), AllocError>
    ensures nodes { OnOk result (tree.new.nodes ≡ tree.old.nodes) }
    ensures seats { OnOk result ((n : _) → SeatsBefore tree.old.forest tree.new.forest (stamp_of seat.now.parent) (stamp_of seat.now.next) (codes_nest n codes.now)) }
    ensures moves { OnOk result (tree.new.moves ≡ tree.old.moves) }
    ensures sound { IsFlat tree.new }
{
    tree.flat();
    for code in codes.list.as_slice() {
        seat_code(tree, seat, code)?;
    }
    Ok(())
}

#[cycle(seating)]
#[inline(never)]
fn seat_code(tree: &mut NodeTree, seat: &Seat, code: &Code) -> Result<(), AllocError>
    ensures nodes { OnOk result (tree.new.nodes ≡ tree.old.nodes) }
    ensures seats { OnOk result ((n : _) → SeatsBefore tree.old.forest tree.new.forest (stamp_of seat.now.parent) (stamp_of seat.now.next) (code_nest n code.now)) }
    ensures moves { OnOk result (tree.new.moves ≡ tree.old.moves) }
    ensures sound { IsFlat tree.new }
{
    match code {
        Code::Still { node } => seat_node(tree, seat, *node),
        Code::Put { node, .. } => seat_node(tree, seat, *node),
        Code::Element { node, body, .. } => seat_element(tree, seat, *node, body),
        Code::Branch { comment, body, .. } => seat_body(tree, seat, body, comment),
        Code::Listed { items, .. } => seat_items(tree, seat, items.as_slice()),
        Code::Unlisted { comment, body, .. } => seat_body(tree, seat, body, comment),
        Code::Let { body, .. } => seat_codes(tree, seat, body),
        Code::Component { body, .. } => seat_codes(tree, seat, body),
        Code::Root { body, .. } => seat_codes(tree, seat, body),
        Code::Yield { body, .. } => seat_codes(tree, seat, body),
    }
}

#[cycle(seating)]
#[inline(never)]
fn seat_items(tree: &mut NodeTree, seat: &Seat, items: &[ItemCode]) -> Result<(), AllocError>
    ensures nodes { OnOk result (tree.new.nodes ≡ tree.old.nodes) }
    ensures seats { OnOk result ((n : _) → SeatsBefore tree.old.forest tree.new.forest (stamp_of seat.now.parent) (stamp_of seat.now.next) (items_nest n items.now)) }
    ensures moves { OnOk result (tree.new.moves ≡ tree.old.moves) }
    ensures sound { IsFlat tree.new }
{
    tree.flat();
    for item in items {
        seat_body(tree, seat, &item.body, &item.comment)?;
    }
    Ok(())
}

// A new element, and in it the nodes of its body.
#[inline(never)]
fn seat_element(
    tree: &mut NodeTree,
    seat: &Seat,
    node: NodeId,
    body: &Codes,
) -> Result<(), AllocError>
    ensures nodes { OnOk result (tree.new.nodes ≡ tree.old.nodes) }
    ensures seats { OnOk result ((n : _) → SeatsBefore tree.old.forest tree.new.forest (stamp_of seat.now.parent) (stamp_of seat.now.next) (nested node.1 (codes_nest n body.now) end)) }
    ensures moves { OnOk result (tree.new.moves ≡ tree.old.moves) }
    ensures sound { IsFlat tree.new }
{
    tree.put_before(seat.parent, node, seat.next)?;
    hang(tree, Some(node), body)
}

fn seat_comment(
    tree: &mut NodeTree,
    seat: &Seat,
    comment: &Option<NodeId>,
) -> Result<(), AllocError>
    ensures nodes { OnOk result (tree.new.nodes ≡ tree.old.nodes) }
    ensures seats { OnOk result (SeatsBefore tree.old.forest tree.new.forest (stamp_of seat.now.parent) (stamp_of seat.now.next) (nest_comment (stamp_of comment.now))) }
    ensures moves { OnOk result (tree.new.moves ≡ tree.old.moves) }
    ensures sound { IsFlat tree.new }
{
    tree.flat();
    match comment {
        Some(node) => seat_node(tree, seat, *node),
        None => Ok(()),
    }
}

#[inline(never)]
fn seat_node(tree: &mut NodeTree, seat: &Seat, node: NodeId) -> Result<(), AllocError>
    ensures nodes { OnOk result (tree.new.nodes ≡ tree.old.nodes) }
    ensures seats { OnOk result (SeatsBefore tree.old.forest tree.new.forest (stamp_of seat.now.parent) (stamp_of seat.now.next) (leaf node.1)) }
    ensures moves { OnOk result (tree.new.moves ≡ tree.old.moves) }
    ensures sound { IsFlat tree.new }
{
    tree.put_before(seat.parent, node, seat.next)
}
