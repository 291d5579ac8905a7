// Where the nodes of an update stand. What is kept does not change by it.
ghost use Rattle.std.specs.Prelude.{◌≡◌, ◌+◌, IfOk, OnOk};
ghost use Rattle.gl_nodes.specs.Flat.{stamp_of};
ghost use Rattle.gl_vm.specs.View.{Calm, state_of, Agrees};
ghost use Rattle.gl_vm.specs.Steps.{Does};
ghost use Rattle.gl_code.specs.CodeView.{seen_codes};
ghost use Rattle.gl_code.specs.Comments.{Commented};
ghost use Rattle.gl_seats.specs.Parts.{body_nest};
ghost use Rattle.gl_seats.specs.Seats.{SeatsBefore, ShiftsBefore};
ghost use Rattle.gl_update.specs.Counted.{one_if};
ghost use Rattle.gl_update.specs.Standing.{Places, Settles};

use crate::counting::Moved;
use gl_code::{Codes, comment_for};
use gl_nodes::NodeId;
use gl_seats::{Seat, behind, seat_body, shift_body};
use gl_vm::Vm;
use std::alloc::AllocError;

#[inline(never)]
fn seat_all(
    vm: &mut Vm,
    seat: &Seat,
    body: &Codes,
    comment: &Option<NodeId>,
) -> Result<(), AllocError>
    ensures step { OnOk result (Does (λ n st. st) vm.old vm.new) }
    ensures calm { Calm vm.old → Calm vm.new }
    ensures seats { OnOk result ((n : _) → SeatsBefore vm.old.tree.forest vm.new.tree.forest (stamp_of seat.now.parent) (stamp_of seat.now.next) (body_nest n body.now comment.now)) }
    ensures moves { OnOk result (vm.new.tree.moves ≡ vm.old.tree.moves) }
{
    seat_body(&mut vm.tree, seat, body, comment)
}

/// Makes the empty comment of a branch or an item, where what was rendered in it has no node, and puts all its nodes into
/// the tree.
#[inline(never)]
pub(crate) fn seat_with_comment(
    vm: &mut Vm,
    seat: &Seat,
    body: &Codes,
) -> Result<Option<NodeId>, AllocError>
    ensures step { IfOk result (λ k. (n : _) (touched : _) → Agrees touched vm.old → Commented n (seen_codes n body.now, state_of n vm.old touched) vm.new k) }
    ensures calm { Calm vm.old → Calm vm.new }
    ensures seats { IfOk result (λ k. (n : _) → SeatsBefore vm.old.tree.forest vm.new.tree.forest (stamp_of seat.now.parent) (stamp_of seat.now.next) (body_nest n body.now k)) }
    ensures moves { OnOk result (vm.new.tree.moves ≡ vm.old.tree.moves) }
{
    let comment = comment_for(vm, body)?;
    seat_all(vm, seat, body, &comment)?;
    Ok(comment)
}

#[inline(never)]
fn move_item(
    vm: &mut Vm,
    seat: &Seat,
    body: &Codes,
    comment: &Option<NodeId>,
) -> Result<(), AllocError>
    ensures step { OnOk result (Does (λ n st. st) vm.old vm.new) }
    ensures calm { Calm vm.old → Calm vm.new }
    ensures shifts { OnOk result ((n : _) → ShiftsBefore vm.old.tree.forest vm.new.tree.forest (stamp_of seat.now.parent) (stamp_of seat.now.next) (body_nest n body.now comment.now)) }
    ensures moves { OnOk result (vm.new.tree.moves ≡ vm.old.tree.moves + 1) }
{
    shift_body(&mut vm.tree, seat, body, comment)
}

/// An item that is kept moves to the seat, which is counted, where it is told so, before it is walked along.
#[inline(never)]
pub(crate) fn place_item(
    vm: &mut Vm,
    moves: bool,
    body: &Codes,
    comment: &Option<NodeId>,
    seat: &Seat,
    moved: &mut Moved,
) -> Result<(), AllocError>
    ensures step { OnOk result (Does (λ n st. st) vm.old vm.new) }
    ensures moved { OnOk result (moved.new.items ≡ moved.old.items + one_if moves) }
    ensures asked { moved.new.asked ≡ moved.old.asked }
    ensures places { OnOk result ((n : _) → Places vm.old.tree vm.new.tree moves seat.now (body_nest n body.now comment.now)) }
    ensures calm { Calm vm.old → Calm vm.new }
{
    if !moves {
        return Ok(());
    }
    move_item(vm, seat, body, comment)?;
    moved.one()
}

/// Where an item that was walked along stayed, the seat is behind it.
#[inline(never)]
pub(crate) fn settle_item(
    vm: &Vm,
    moves: bool,
    body: &Codes,
    comment: &Option<NodeId>,
    seat: &mut Seat,
) -> Result<(), AllocError>
    ensures settles { OnOk result ((n : _) → Settles vm.now.tree moves seat.old seat.new (body_nest n body.now comment.now)) }
{
    if moves {
        return Ok(());
    }
    *seat = behind(&vm.tree, &seat.parent, body, comment)?;
    Ok(())
}
