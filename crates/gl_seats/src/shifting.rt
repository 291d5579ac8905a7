// The nodes of an item that moves.
ghost use Rattle.std.specs.Prelude.{◌≡◌, ◌+◌, OnOk};
ghost use Rattle.gl_nodes.specs.Flat.{stamp_of};
ghost use Rattle.gl_seats.specs.Parts.{body_nest};
ghost use Rattle.gl_seats.specs.Seats.{ShiftsBefore};

use crate::places::Seat;
use crate::tops::{first_top, last_top};
use gl_code::Codes;
use gl_nodes::{NodeId, NodeTree};
use std::alloc::AllocError;

/// Moves the nodes of a body with its comment before the next node of a seat, or to the end of their parent. Where it has no node, its nodes
/// are no siblings, or the next one is none of these or is one of them, it answers as for want of memory.
pub fn shift_body(
    tree: &mut NodeTree,
    seat: &Seat,
    body: &Codes,
    comment: &Option<NodeId>,
) -> Result<(), AllocError>
    ensures nodes { OnOk result (tree.new.nodes ≡ tree.old.nodes) }
    ensures shifts { OnOk result ((n : _) → ShiftsBefore tree.old.forest tree.new.forest (stamp_of seat.now.parent) (stamp_of seat.now.next) (body_nest n body.now comment.now)) }
    ensures moves { OnOk result (tree.new.moves ≡ tree.old.moves + 1) }
{
    let Some(first) = first_top(body, comment) else {
        return Err(AllocError);
    };
    let Some(last) = last_top(body, comment) else {
        return Err(AllocError);
    };
    tree.flat();
    tree.shift(first, last, seat.next)
}
